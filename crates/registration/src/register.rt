// Register: makes a pending row with the next number.
ghost use Rattle.std.specs.Prelude.{◌≡◌, ◌<◌, true, length};
ghost use Rattle.rules.specs.Limits.{most_rows, book_size};
ghost use Rattle.rules.specs.Verdicts.{checked};
ghost use Rattle.rules.specs.Requests.{register};
ghost use Rattle.rules.specs.Books.{operator_of};
ghost use Rattle.rules.specs.Registration.{pending, proposed};
ghost use Rattle.image.specs.Valid.{is_sound, book_in, book_bytes};
ghost use Rattle.book.specs.Members.{IsAccount};
ghost use Rattle.book.specs.Waits.{WaitsOf};
ghost use Rattle.book.specs.Worth.{TradeInRange};
ghost use Rattle.book.specs.Kinds.{decided, outcome_on, book_after, Ready};
ghost use Rattle.registration.specs.Proposing.{ProposesRow, Proposing, row_appended};
ghost use Rattle.registration.specs.Cover.{covered_with_row};

use crate::cover::covered_in_force;
use crate::margins::first_broken;
use book::state::{operator_of, phase, row_count};
use book::waits::{fill_waits, no_waits};
use book::worth::exposure_with;
use image::layout::{MOST_ROWS, PRESENT_OFFSET, ROW_COUNT_OFFSET, ROW_WIDTH, ROWS_OFFSET};
use image::rows::row_bytes;
use rules::phases::Phase;
use rules::sides::SELLS;
use rules::statuses::PENDING;
use rules::{Refusal, Request, Row};
use wire::numbers::put;
use wire::regions::copy_in;

// The row that the request proposes.
pub fn proposed_row(request: Request) -> Row
    ensures { result ≡ proposed request }
{
    let quantity = request.quantity;
    Row {
        proposer: request.account,
        counterparty: request.other,
        code: request.code,
        side: request.side,
        first: request.first,
        last: request.last,
        quantity,
        status: PENDING,
    }
}

// Whether the exposure of the account's operator is covered once the row is added.
fn covered_with_row(book: &[u8], row: Row, number: u8) -> bool
    requires known_book { (is_sound book.now ≡ true) × IsAccount (book_in book.now) number }
    requires trade_in_range { TradeInRange (book_in book.now).setup row × (pending row ≡ true) }
    ensures { let b = book_in book.now in result ≡ covered_with_row b row (operator_of b.setup number) }
{
    // A pending purchase adds nothing to the exposure, and in a book the exposure is at most what is available.
    if row.side != SELLS {
        return true;
    }
    let operator = operator_of(book, number);
    let owed = exposure_with(book, operator, Some(row));
    covered_in_force(book, owed, operator)
}

// What register is refused for once its row has no twin and there is a number for it: a margin that it breaks, or an exposure that is not
// covered. `waits` holds the account's pending sums.
fn margin_or_exposure_fault(book: &[u8], waits: &[u32], request: Request) -> Result<(), Refusal>
    requires known_book { (is_sound book.now ≡ true) × WaitsOf (book_in book.now).part.rows request.account waits.now }
    requires proposing { Proposing (book_in book.now) request }
    ensures { result ≡ checked (decided register (book_in book.now) request) }
{
    let row = proposed_row(request);
    if let Some(hour) = first_broken(book, waits, row, request.account) {
        return Err(Refusal::MarginBroken { hour });
    }
    if covered_with_row(book, row, request.account) {
        return Ok(());
    }
    Err(Refusal::Uncovered)
}

// What register is refused for.
#[tactic(auto, using(crate::proofs::RegisterLaws::rows_full))]
pub fn register_fault(book: &[u8], request: Request) -> Result<(), Refusal>
    requires known_book { is_sound book.now ≡ true }
    requires proposes_row { ProposesRow (book_in book.now) request }
    ensures { result ≡ checked (decided register (book_in book.now) request) }
{
    if phase(book) != Phase::Registration {
        return Err(Refusal::WrongPhase);
    }
    // One pass over the rows sums those that the account has pending, and finds whether one of them is a twin.
    let mut waits = no_waits();
    if fill_waits(
        &mut waits,
        book,
        request.account,
        request.other,
        request.code,
    ) {
        return Err(Refusal::AlreadyPending);
    }
    if MOST_ROWS <= row_count(book) as usize {
        return Err(Refusal::RowsFull);
    }
    margin_or_exposure_fault(book, &waits, request)
}

// Puts a row after the `n` that there are, and counts it.
pub fn append_row(book: &mut [u8], n: u16, r: Row)
    requires { (length book.old ≡ book_size) × (n < most_rows) }
    ensures { book.new ≡ row_appended book.old n r }
{
    let bytes = row_bytes(r);
    copy_in(
        book,
        PRESENT_OFFSET + (ROWS_OFFSET + ROW_WIDTH * (n as usize)),
        &bytes,
    );
    put(book, PRESENT_OFFSET + ROW_COUNT_OFFSET, n + 1);
}

// Kind 1: the row that the request proposes is pending under the next number.
pub fn register(book: &mut [u8], request: Request) -> Result<u16, Refusal>
    requires known_book { is_sound book.old ≡ true }
    requires ready { Ready register (book_in book.old) request }
    ensures answer { result ≡ outcome_on register (book_in book.old) request }
    ensures bytes { book.new ≡ book_bytes (book_after register (book_in book.old) request) }
    ensures still { is_sound book.new ≡ true }
{
    register_fault(book, request)?;
    let n = row_count(book);
    let row = proposed_row(request);
    append_row(book, n, row);
    Ok(n + 1)
}
