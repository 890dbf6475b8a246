// Ask: answered as the register of its fields would be. Accepted, it stands for its account and changes nothing else.
ghost use Rattle.std.specs.Prelude.{◌≡◌, true};
ghost use Rattle.rules.specs.Requests.{ask};
ghost use Rattle.image.specs.Valid.{is_sound, book_in, book_bytes};
ghost use Rattle.book.specs.Kinds.{outcome_on, book_after, Ready};

use crate::places::put_ask;
use book::state::row_count;
use registration::register::{proposed_row, register_fault};
use rules::{Refusal, Request};

// Kind 12: what register would answer, with the number that it would give.
pub fn ask(book: &mut [u8], request: Request) -> Result<u16, Refusal>
    requires known_book { is_sound book.old ≡ true }
    requires ready { Ready ask (book_in book.old) request }
    ensures answer { result ≡ outcome_on ask (book_in book.old) request }
    ensures bytes { book.new ≡ book_bytes (book_after ask (book_in book.old) request) }
    ensures still { is_sound book.new ≡ true }
{
    register_fault(book, request)?;
    let n = row_count(book);
    let row = proposed_row(request);
    put_ask(book, row);
    let number = n + 1;
    Ok(number)
}
