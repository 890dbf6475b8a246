// Pending rows that are twins of asks: found in one pass over the rows, each beside the ask of its proposer.
ghost use Rattle.std.specs.Prelude.{◌≡◌, true};
ghost use Rattle.image.specs.Valid.{is_sound, book_in};
ghost use Rattle.book.specs.Members.{IsRow, numbered_row};
ghost use Rattle.asks.specs.Standing.{is_ask_twin, some_ask_twin};

use crate::places::asked_row;
use book::state::{row_count, row_offset};
use image::rows::row_at;
use rules::statuses::PENDING;

// Whether the row of that number is a twin of its proposer's ask.
fn is_ask_twin(book: &[u8], number: u16) -> bool
    requires { (is_sound book.now ≡ true) × IsRow (book_in book.now) number }
    ensures { let b = book_in book.now in result ≡ is_ask_twin b (numbered_row b number) }
{
    let row = row_at(book, row_offset(number));
    let Some(asked) = asked_row(book, row.proposer) else {
        return false;
    };
    (row.status == PENDING) & (row.counterparty == asked.counterparty) & (row.code == asked.code)
}

// Whether some row of the book is.
pub fn any_ask_twin(book: &[u8]) -> bool
    requires { is_sound book.now ≡ true }
    ensures { result ≡ some_ask_twin (book_in book.now) }
{
    let mut found = false;
    for number in 1..=row_count(book) {
        found |= is_ask_twin(book, number);
    }
    found
}
