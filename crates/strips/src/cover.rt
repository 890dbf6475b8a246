// The exposure of the proposer's operator, with every row of the strip in.
ghost use Rattle.std.specs.Prelude.{◌≡◌, true, ◌*◌, ◌≤◌};
ghost use Rattle.rules.specs.Basics.{total};
ghost use Rattle.rules.specs.Limits.{most_strip};
ghost use Rattle.rules.specs.Books.{operator_of};
ghost use Rattle.image.specs.Valid.{is_sound, book_in};
ghost use Rattle.book.specs.Worth.{SaleInputs, sale_worth, most_sale_worth};
ghost use Rattle.registration.specs.Cover.{covered_with_rows};
ghost use Rattle.strips.specs.Ready.{ReadyStrip, proposer, proposed_rows};

use book::state::operator_of;
use book::worth::{account_operators, exposure_with, price_sums, sale_of};
use registration::cover::covered_in_force;
use registration::register::proposed_row;
use strip_rows::rows::{HEAD_LENGTH, ROW_LENGTH, row_request};
use units::MilliCents;

// What the rows of the strip add to the operator's exposure as pending sales.
fn strip_sales(
    book: &[u8],
    sums: &[u64],
    operators: &[u8],
    operator: u8,
    bytes: &[u8],
    n: usize,
) -> MilliCents
    requires { SaleInputs book.now sums.now operators.now × ReadyStrip (book_in book.now) bytes.now n }
    ensures meaning { let u = (book_in book.now).setup in
        result.0 ≡ total (sale_worth u operator) (proposed_rows bytes.now n) }
    ensures bounded { result.0 ≤ most_strip * most_sale_worth }
{
    let mut sum = MilliCents(0);
    for i in 0..n {
        let k = HEAD_LENGTH + ROW_LENGTH * i;
        let q = row_request(&bytes[k..k + ROW_LENGTH]);
        sum = sum + sale_of(book, sums, operators, operator, proposed_row(q));
    }
    sum
}

// Whether the exposure of the account's operator is covered once all rows are added; the account is the strip's proposer.
pub fn covered_with_strip(book: &[u8], bytes: &[u8], n: usize, number: u8) -> bool
    requires { (is_sound book.now ≡ true) × ReadyStrip (book_in book.now) bytes.now n × (number ≡ proposer bytes.now n) }
    ensures { let b = book_in book.now in
        result ≡ covered_with_rows b (proposed_rows bytes.now n) (operator_of b.setup number) }
{
    let operator = operator_of(book, number);
    let standing = exposure_with(book, operator, None);
    let sums = price_sums(book);
    let operators = account_operators(book);
    let added = strip_sales(book, &sums, &operators, operator, bytes, n);
    covered_in_force(book, standing + added, operator)
}
