// Commit: registers the row that was asked for. Where its ask stands in a book, nothing else can refuse it.
ghost use Rattle.std.specs.Prelude.{◌≡◌, true};
ghost use Rattle.rules.specs.Verdicts.{checked};
ghost use Rattle.rules.specs.Requests.{commit};
ghost use Rattle.image.specs.Valid.{is_sound, is_book, book_in, book_bytes};
ghost use Rattle.book.specs.Kinds.{decided, outcome_on, book_after, Ready};

use crate::places::stands;
use book::state::{phase, row_count};
use registration::register::{append_row, proposed_row};
use rules::phases::Phase;
use rules::{Refusal, Request};

// What commit is refused for.
fn commit_fault(book: &[u8], request: Request) -> Result<(), Refusal>
    requires known_book { is_book book.now ≡ true }
    requires ready { Ready commit (book_in book.now) request }
    ensures { result ≡ checked (decided commit (book_in book.now) request) }
{
    if phase(book) != Phase::Registration {
        return Err(Refusal::WrongPhase);
    }
    let row = proposed_row(request);
    // In a book register would accept each ask that stands.
    if stands(book, row) {
        return Ok(());
    }
    Err(Refusal::NoStandingAsk)
}

// Kind 13: the row that was asked for is pending under the next number.
pub fn commit(book: &mut [u8], request: Request) -> Result<u16, Refusal>
    requires known_book { is_book book.old ≡ true }
    requires ready { Ready commit (book_in book.old) request }
    ensures answer { result ≡ outcome_on commit (book_in book.old) request }
    ensures bytes { book.new ≡ book_bytes (book_after commit (book_in book.old) request) }
    ensures still { is_sound book.new ≡ true }
{
    commit_fault(book, request)?;
    let n = row_count(book);
    let row = proposed_row(request);
    append_row(book, n, row);
    Ok(n + 1)
}
