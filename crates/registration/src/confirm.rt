// Confirm: a pending row becomes a trade, and moves the net positions of its seller and its buyer.
ghost use Rattle.std.specs.Prelude.{◌≡◌, ◌≤◌, ℕ, true, length, Some};
ghost use Rattle.rules.specs.Limits.{most_rows, most_hours, book_size};
ghost use Rattle.rules.specs.Books.{operator_of, confirmed_status};
ghost use Rattle.rules.specs.Verdicts.{checked};
ghost use Rattle.rules.specs.Requests.{confirm};
ghost use Rattle.rules.specs.Registration.{with_status, mirrors};
ghost use Rattle.rules.specs.Calls.{confirmed_number};
ghost use Rattle.image.specs.Valid.{is_sound, book_in, book_bytes};
ghost use Rattle.image.specs.Tables.{Tabled};
ghost use Rattle.book.specs.Members.{IsAccount, IsRow, numbered_row};
ghost use Rattle.book.specs.Kinds.{decided, outcome_on, book_after, Ready};
ghost use Rattle.registration.specs.Confirming.{some_number, Confirming, WaitsIn};
ghost use Rattle.registration.specs.Cover.{covered_with_trade};
ghost use Rattle.registration.specs.Positions.{nets_moved, marked_confirmed};

use crate::cover::covered_in_force;
use crate::margins::broken_hour;
use crate::positions::move_nets;
use crate::search::pending_number;
use book::state::{operator_of, phase, row_offset};
use book::worth::exposure_with;
use image::rows::{STATUS_OFFSET, row_at};
use rules::phases::Phase;
use rules::sides::SELLS;
use rules::statuses::CONFIRMED;
use rules::{Refusal, Request, Row};
use wire::numbers::put;

// The number of the row that the request confirms, if it names one.
fn confirmed_number(book: &[u8], request: Request) -> Option<u16>
    requires { is_sound book.now ≡ true }
    ensures meaning { result ≡ some_number (confirmed_number (book_in book.now) request) }
    ensures of_a_row { (number : ℕ) → result ≡ Some number → IsRow (book_in book.now) number }
{
    pending_number(book, request.other, request.account, request.code)
}

// The row of a number.
fn numbered_row(book: &[u8], number: u16) -> Row
    requires { (is_sound book.now ≡ true) × IsRow (book_in book.now) number }
    ensures { result ≡ numbered_row (book_in book.now) number }
{
    row_at(book, row_offset(number))
}

// The request has the row's terms from the other side.
fn is_mirrored(r: Row, request: Request) -> bool
    ensures { result ≡ mirrors request r }
{
    (r.side != request.side)
        & (r.first == request.first)
        & (r.last == request.last)
        & (r.quantity.0 == request.quantity.0)
}

// The row once it is confirmed.
fn confirmed_row(r: Row) -> Row
    ensures { result ≡ with_status confirmed_status r }
{
    Row {
        status: CONFIRMED,
        ..r
    }
}

// Whether the exposure of the account's operator is covered once the pending row is confirmed; `trade` is the confirmed row.
#[tactic(auto, using(crate::proofs::ConfirmLaws::sale_covered))]
fn covered_with_trade(book: &[u8], row: Row, trade: Row, number: u8) -> bool
    requires known_book { (is_sound book.now ≡ true) × IsAccount (book_in book.now) number }
    requires waits_in { WaitsIn (book_in book.now) row × (trade ≡ with_status confirmed_status row) }
    ensures { let b = book_in book.now in result ≡ covered_with_trade b row (operator_of b.setup number) }
{
    // A pending sale counts in full, so that confirming it raises no exposure; and in a book every exposure is at most what is available.
    if row.side == SELLS {
        return true;
    }
    // A pending purchase adds nothing to the exposure, so that nothing is to be subtracted for it.
    let operator = operator_of(book, number);
    let owed = exposure_with(book, operator, Some(trade));
    covered_in_force(book, owed, operator)
}

// What confirm is refused for once it mirrors the row that it names: a margin that the trade breaks, or an exposure that is not covered.
fn margin_or_exposure_fault(book: &[u8], request: Request, row: Row) -> Result<(), Refusal>
    requires { (is_sound book.now ≡ true) × Confirming (book_in book.now) request row }
    ensures { result ≡ checked (decided confirm (book_in book.now) request) }
{
    let trade = confirmed_row(row);
    if let Some(hour) = broken_hour(book, trade, request.account) {
        return Err(Refusal::MarginBroken { hour });
    }
    if covered_with_trade(book, row, trade, request.account) {
        return Ok(());
    }
    Err(Refusal::Uncovered)
}

// What confirm is refused for; else the number of the row that it confirms.
fn number_to_confirm(book: &[u8], request: Request) -> Result<u16, Refusal>
    requires { is_sound book.now ≡ true }
    ensures { result ≡ outcome_on confirm (book_in book.now) request }
{
    let named = confirmed_number(book, request);
    if phase(book) != Phase::Registration {
        return Err(Refusal::WrongPhase);
    }
    let Some(number) = named else {
        return Err(Refusal::NoSuchRow);
    };
    let row = numbered_row(book, number);
    if !is_mirrored(row, request) {
        return Err(Refusal::NotMirrored);
    }
    margin_or_exposure_fault(book, request, row)?;
    Ok(number)
}

// The row of that number becomes a trade: its status, then the net positions of its seller and its buyer.
fn put_trade(book: &mut [u8], number: u16, row: Row)
    requires { (length book.old ≡ book_size) × (1 ≤ number) × (number ≤ most_rows) × Tabled most_hours row × (1 ≤ row.quantity.0) }
    ensures { book.new ≡ nets_moved (marked_confirmed book.old number) row }
{
    put(book, row_offset(number) + STATUS_OFFSET, CONFIRMED);
    move_nets(book, row);
}

// Kind 2: the row that the request names and mirrors is confirmed, under its number.
pub fn confirm(book: &mut [u8], request: Request) -> Result<u16, Refusal>
    requires known_book { is_sound book.old ≡ true }
    requires ready { Ready confirm (book_in book.old) request }
    ensures answer { result ≡ outcome_on confirm (book_in book.old) request }
    ensures bytes { book.new ≡ book_bytes (book_after confirm (book_in book.old) request) }
    ensures still { is_sound book.new ≡ true }
{
    let number = number_to_confirm(book, request)?;
    let row = numbered_row(book, number);
    put_trade(book, number, row);
    Ok(number)
}
