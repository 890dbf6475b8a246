// Withdraw: ends a pending row of its proposer.
ghost use Rattle.std.specs.Prelude.{◌≡◌, ◌≤◌, true};
ghost use Rattle.rules.specs.Verdicts.{checked};
ghost use Rattle.rules.specs.Requests.{withdraw};
ghost use Rattle.rules.specs.Registration.{withdraws};
ghost use Rattle.image.specs.Valid.{is_sound, book_in, book_bytes};
ghost use Rattle.book.specs.Kinds.{decided, outcome_on, book_after, Ready};

use book::state::{phase, row_count, row_offset};
use image::rows::STATUS_OFFSET;
use rules::phases::Phase;
use rules::statuses::{PENDING, WITHDRAWN};
use rules::{Refusal, Request};
use wire::numbers::{get, put};

// Whether the row that the request names is pending and its account's own.
fn is_own_pending(book: &[u8], request: Request) -> bool
    requires known_book { is_sound book.now ≡ true }
    requires numbered { 1 ≤ request.number }
    ensures { result ≡ withdraws (book_in book.now).part.rows request }
{
    if row_count(book) < request.number {
        return false;
    }
    let at = row_offset(request.number);
    (get::<u8>(book, at + STATUS_OFFSET) == PENDING) & (get::<u8>(book, at) == request.account)
}

// What withdraw is refused for.
fn withdrawal_fault(book: &[u8], request: Request) -> Result<(), Refusal>
    requires known_book { is_sound book.now ≡ true }
    requires numbered { 1 ≤ request.number }
    ensures { result ≡ checked (decided withdraw (book_in book.now) request) }
{
    if phase(book) != Phase::Registration {
        return Err(Refusal::WrongPhase);
    }
    if is_own_pending(book, request) {
        return Ok(());
    }
    Err(Refusal::NoSuchRow)
}

// Kind 3: the row's status becomes withdrawn.
pub fn withdraw(book: &mut [u8], request: Request) -> Result<u16, Refusal>
    requires known_book { is_sound book.old ≡ true }
    requires ready { Ready withdraw (book_in book.old) request }
    ensures answer { result ≡ outcome_on withdraw (book_in book.old) request }
    ensures bytes { book.new ≡ book_bytes (book_after withdraw (book_in book.old) request) }
    ensures still { is_sound book.new ≡ true }
{
    withdrawal_fault(book, request)?;
    put(book, row_offset(request.number) + STATUS_OFFSET, WITHDRAWN);
    Ok(0)
}
