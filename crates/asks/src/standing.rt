// Whether register would accept each ask that stands, as the book is. What the tests of all asks share is worked out once.
ghost use Rattle.std.specs.Prelude.{◌≡◌, true, false, not, [], ◌∷◌, ◌≤◌};
ghost use Rattle.rules.specs.Basics.{is_some};
ghost use Rattle.rules.specs.Limits.{most_accounts, most_hours};
ghost use Rattle.rules.specs.Books.{ask_at, operator_of};
ghost use Rattle.rules.specs.Registration.{pending, broken_by};
ghost use Rattle.rules.specs.Asks.{ask_stands, asks_stand};
ghost use Rattle.image.specs.Valid.{is_sound, book_in, row_ok};
ghost use Rattle.tables.specs.Sums.{SumsOf};
ghost use Rattle.book.specs.Worth.{SaleInputs};
ghost use Rattle.registration.specs.Cover.{covered_with_row};
ghost use Rattle.asks.specs.Standing.{OperatorExposures, AskInputs, some_ask_twin};

use crate::exposures::operator_exposures;
use crate::places::asked_row;
use crate::twins::any_ask_twin;
use book::state::{operator_of, phase, row_count};
use book::worth::{account_operators, price_sums, sale_of};
use image::layout::{ASKS_OFFSET, ASKS_SIZE, MOST_ROWS};
use registration::cover::covered_in_force;
use rules::Row;
use rules::hours::keeps_margins;
use rules::limits::{MOST_ACCOUNTS, PERIODS};
use rules::phases::Phase;
use setup::entries::margins;
use tables::sums::account_hour;
use units::MilliCents;
use wire::regions::all_zero;

// Whether the proposer keeps its margins once the row is added; `table` holds the sums of the book's rows. Only the row's hours are tested:
// the other hours stay as they are, and in a book no margin is broken.
fn keeps_margins_with(book: &[u8], table: &[u32], row: Row) -> bool
    requires known_book { (is_sound book.now ≡ true) × SumsOf most_hours (book_in book.now).part.rows table.now }
    requires sound_row { row_ok (book_in book.now).setup row ≡ true }
    ensures { let b = book_in book.now in
        result ≡ not (is_some (broken_by b.setup b.part.rows (row ∷ []) row.proposer)) }
{
    let account = row.proposer;
    for hour in row.first..=row.last {
        let own = margins(book, account, hour);
        let before = account_hour(table, PERIODS, account, hour);
        let after = before.after_trade(row, account, hour);
        if !keeps_margins(own, after) {
            return false;
        }
    }
    true
}

// Whether the exposure of the proposer's operator is covered once the row is added.
fn covered_with(book: &[u8], exposures: &[u64], sums: &[u64], operators: &[u8], row: Row) -> bool
    requires operator_exposures { OperatorExposures (book_in book.now) exposures.now × SaleInputs book.now sums.now operators.now }
    requires sound_row { (row_ok (book_in book.now).setup row ≡ true) × (pending row ≡ true) }
    ensures { let b = book_in book.now in result ≡ covered_with_row b row (operator_of b.setup row.proposer) }
{
    let operator = operator_of(book, row.proposer);
    let standing = MilliCents(exposures[operator as usize]);
    let added = sale_of(book, sums, operators, operator, row);
    covered_in_force(book, standing + added, operator)
}

// Whether register would accept the ask of an account, if one stands. No row is a twin of an ask.
fn ask_stands(
    book: &[u8],
    table: &[u32],
    exposures: &[u64],
    sums: &[u64],
    operators: &[u8],
    number: u8,
) -> bool
    requires ask_inputs { AskInputs book.now table.now exposures.now sums.now operators.now }
    requires known_book { (some_ask_twin (book_in book.now) ≡ false) × (1 ≤ number) × (number ≤ most_accounts) }
    ensures { let b = book_in book.now in result ≡ ask_stands b (ask_at b number) }
{
    let Some(row) = asked_row(book, number) else {
        return true;
    };
    if phase(book) != Phase::Registration {
        return false;
    }
    if MOST_ROWS <= row_count(book) as usize {
        return false;
    }
    if keeps_margins_with(book, table, row) {
        return covered_with(book, exposures, sums, operators, row);
    }
    false
}

// Whether register would accept every ask that stands. No row is a twin of an ask.
fn each_stands(book: &[u8], table: &[u32]) -> bool
    requires known_book { (is_sound book.now ≡ true) × (some_ask_twin (book_in book.now) ≡ false) }
    requires sums_of { SumsOf most_hours (book_in book.now).part.rows table.now }
    ensures { result ≡ asks_stand (book_in book.now) }
{
    let exposures = operator_exposures(book, table);
    let sums = price_sums(book);
    let operators = account_operators(book);
    for number in 1..=MOST_ACCOUNTS {
        if !ask_stands(book, table, &exposures, &sums, &operators, number) {
            return false;
        }
    }
    true
}

// Whether register would accept every ask that stands; `table` holds the sums of the book's rows.
pub fn asks_stand(book: &[u8], table: &[u32]) -> bool
    requires { (is_sound book.now ≡ true) × SumsOf most_hours (book_in book.now).part.rows table.now }
    ensures { result ≡ asks_stand (book_in book.now) }
{
    // Mostly no ask stands.
    if all_zero(book, ASKS_OFFSET, ASKS_SIZE) {
        return true;
    }
    if any_ask_twin(book) {
        return false;
    }
    each_stands(book, table)
}
