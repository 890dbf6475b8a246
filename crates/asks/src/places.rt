// The places of standing asks in a book's bytes: one for each account that a day may have.
ghost use Rattle.std.specs.Prelude.{◌≡◌, true, ◌≤◌};
ghost use Rattle.rules.specs.Limits.{most_accounts};
ghost use Rattle.rules.specs.Books.{with_asks, ask_at, no_asks};
ghost use Rattle.rules.specs.Registration.{stands_with};
ghost use Rattle.rules.specs.Calls.{apply, stand_ask};
ghost use Rattle.image.specs.Valid.{is_sound, is_book, book_in, book_bytes, row_ok};

use image::layout::{ASKS_OFFSET, ASKS_SIZE};
use image::rows::{ask_offset, row_at, row_bytes, same_terms};
use rules::Row;
use wire::regions::{clear_at, copy_in};

// The row that is asked for by an account, if an ask of it stands.
pub fn asked_row(book: &[u8], number: u8) -> Option<Row>
    requires { (is_sound book.now ≡ true) × (1 ≤ number) × (number ≤ most_accounts) }
    ensures { result ≡ ask_at (book_in book.now) number }
{
    let row = row_at(book, ask_offset(number));
    if row.status == 0 {
        return None;
    }
    Some(row)
}

// Whether an ask with the terms of the row stands for its proposer.
pub fn stands(book: &[u8], row: Row) -> bool
    requires { (is_sound book.now ≡ true) × (1 ≤ row.proposer) × (row.proposer ≤ most_accounts) }
    ensures { result ≡ stands_with row (ask_at (book_in book.now) row.proposer) }
{
    let Some(asked) = asked_row(book, row.proposer) else {
        return false;
    };
    same_terms(asked, row)
}

// The row stands as the ask of its proposer, in place of an earlier one.
pub fn put_ask(book: &mut [u8], row: Row)
    requires { (is_sound book.old ≡ true) × (row_ok (book_in book.old).setup row ≡ true) }
    ensures { book.new ≡ book_bytes (apply (stand_ask row) (book_in book.old)) }
{
    let at = ask_offset(row.proposer);
    let bytes = row_bytes(row);
    copy_in(book, at, &bytes);
}

// No ask stands any longer. What is left is a book.
pub fn clear_asks(book: &mut [u8])
    requires { is_sound book.old ≡ true }
    ensures bytes { book.new ≡ book_bytes (with_asks (book_in book.old) no_asks) }
    ensures still { is_book book.new ≡ true }
{
    clear_at(book, ASKS_OFFSET, ASKS_SIZE);
}
