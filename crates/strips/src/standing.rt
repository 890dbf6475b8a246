// The rows that stand compared with those of a strip: whether a pending one is like one of them.
ghost use Rattle.std.specs.Prelude.{◌≡◌, true};
ghost use Rattle.rules.specs.Basics.{any_passes};
ghost use Rattle.rules.specs.Requests.{head_length};
ghost use Rattle.image.specs.Valid.{is_sound, book_in};
ghost use Rattle.book.specs.Members.{IsRow, numbered_row};
ghost use Rattle.strip_rows.specs.Rows.{RegisterRows};
ghost use Rattle.strips.specs.Ready.{strip_requests, alike_among};

use book::state::{row_count, row_offset};
use image::rows::{STATUS_OFFSET, row_at};
use rules::statuses::PENDING;
use strip_rows::requests::has_code;
use strip_rows::rows::HEAD_LENGTH;
use wire::numbers::get;

// Whether the row of that number is pending, has this proposer, and the counterparty and code of one of the strip's rows. Most rows have
// another proposer, so that is tested first.
fn row_is_alike(book: &[u8], number: u16, bytes: &[u8], n: usize, account: u8) -> bool
    requires { (is_sound book.now ≡ true) × IsRow (book_in book.now) number × RegisterRows bytes.now head_length n }
    ensures { result ≡ alike_among account (strip_requests bytes.now n) (numbered_row (book_in book.now) number) }
{
    let at = row_offset(number);
    if get::<u8>(book, at) != account {
        return false;
    }
    if get::<u8>(book, at + STATUS_OFFSET) != PENDING {
        return false;
    }
    let r = row_at(book, at);
    has_code(bytes, HEAD_LENGTH, n, r.counterparty, r.code)
}

// Whether some row of the book is.
pub fn any_is_alike(book: &[u8], bytes: &[u8], n: usize, account: u8) -> bool
    requires { (is_sound book.now ≡ true) × RegisterRows bytes.now head_length n }
    ensures { result ≡ any_passes (alike_among account (strip_requests bytes.now n)) (book_in book.now).part.rows }
{
    let mut found = false;
    for number in 1..=row_count(book) {
        found |= row_is_alike(book, number, bytes, n, account);
    }
    found
}
