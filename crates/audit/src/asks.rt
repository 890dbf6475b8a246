// The asks of a book, each in the place of its account.
ghost use Rattle.std.specs.Prelude.{◌≡◌, ◌≤◌, length};
ghost use Rattle.rules.specs.Limits.{most_accounts, most_hours, book_size};
ghost use Rattle.image.specs.Layout.{ask_offset};
ghost use Rattle.audit.specs.Validity.{ask_valid, asks_valid};

use crate::checks::row_ok;
use image::layout::{ASKS_OFFSET, ASKS_SIZE, ROW_WIDTH};
use image::rows::{ask_offset, row_at};
use rules::limits::MOST_ACCOUNTS;
use rules::statuses::PENDING;
use setup::counts::counts;
use wire::regions::all_zero;

// The place of account `number` is zero, or has a pending row of that account with every field in range.
fn ask_valid(book: &[u8], number: u8) -> bool
    requires { (length book.now ≡ book_size) × (1 ≤ number) × (number ≤ most_accounts) }
    ensures { result ≡ ask_valid book.now number (ask_offset most_hours number) }
{
    let at = ask_offset(number);
    let r = row_at(book, at);
    if r.status == 0 {
        return all_zero(book, at, ROW_WIDTH);
    }
    let c = counts(book);
    (r.proposer == number) & (r.status == PENDING) & row_ok(r, c.accounts, c.hours)
}

// Whether that is so of every account's place. Mostly no ask stands, and one look at the section says so.
pub fn asks_valid(book: &[u8]) -> bool
    requires { length book.now ≡ book_size }
    ensures { result ≡ asks_valid most_hours book.now }
{
    if all_zero(book, ASKS_OFFSET, ASKS_SIZE) {
        return true;
    }
    for number in 1..=MOST_ACCOUNTS {
        if !ask_valid(book, number) {
            return false;
        }
    }
    true
}
