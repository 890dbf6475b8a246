// The search for a pending row by its parties and its code: the one that a confirm names.
ghost use Rattle.std.specs.Prelude.{◌≡◌, ◌+◌, ◌*◌, ◌≤◌, ℕ, true, length, take, drop, Some};
ghost use Rattle.rules.specs.Registration.{alike};
ghost use Rattle.image.specs.Image.{row_in};
ghost use Rattle.image.specs.Valid.{is_sound, book_in};
ghost use Rattle.image.specs.Cells.{rows_from};
ghost use Rattle.image.specs.Layout.{row_width};
ghost use Rattle.book.specs.Members.{IsRow};
ghost use Rattle.registration.specs.Confirming.{number_alike, some_number};

use book::state::row_count;
use image::layout::{PRESENT_OFFSET, ROW_WIDTH, ROWS_OFFSET};
use image::rows::{CODE_OFFSET, COUNTERPARTY_OFFSET, STATUS_OFFSET};
use rules::statuses::PENDING;
use wire::numbers::get;

// Whether the row from `at` on is pending with this proposer, counterparty and code. Codes mostly differ, so that the code is tested first.
fn alike_at(book: &[u8], at: usize, proposer: u8, counterparty: u8, code: u64) -> bool
    requires { at + row_width ≤ length book.now }
    ensures { result ≡ alike proposer counterparty code (row_in (take row_width (drop at book.now))) }
{
    if get::<u64>(book, at + CODE_OFFSET) != code {
        return false;
    }
    let status = get::<u8>(book, at + STATUS_OFFSET);
    let first = get::<u8>(book, at);
    let second = get::<u8>(book, at + COUNTERPARTY_OFFSET);
    (status == PENDING) & (first == proposer) & (second == counterparty)
}

// Of the `n` rows from `at` on, the number of the first pending one with this proposer, counterparty and code, if there is one.
fn number_among(
    book: &[u8],
    at: usize,
    n: usize,
    proposer: u8,
    counterparty: u8,
    code: u64,
) -> Option<usize>
    requires { at + row_width * n ≤ length book.now }
    ensures { result ≡ some_number (number_alike proposer counterparty code (rows_from book.now at n)) }
{
    for passed in 0..n {
        if alike_at(book, at + ROW_WIDTH * passed, proposer, counterparty, code) {
            return Some(passed + 1);
        }
    }
    None
}

// The number of the book's first such row, if there is one.
pub fn pending_number(book: &[u8], proposer: u8, counterparty: u8, code: u64) -> Option<u16>
    requires { is_sound book.now ≡ true }
    ensures meaning { result ≡ some_number (number_alike proposer counterparty code (book_in book.now).part.rows) }
    ensures of_a_row { (number : ℕ) → result ≡ Some number → IsRow (book_in book.now) number }
{
    let n = row_count(book) as usize;
    let number = number_among(
        book,
        PRESENT_OFFSET + ROWS_OFFSET,
        n,
        proposer,
        counterparty,
        code,
    )?;
    Some(number as u16)
}
