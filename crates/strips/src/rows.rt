// The rows of an accepted strip, written one by one.
ghost use Rattle.std.specs.Prelude.{◌≡◌, ◌+◌, ◌≤◌, length};
ghost use Rattle.rules.specs.Limits.{most_rows, book_size};
ghost use Rattle.strip_rows.specs.Rows.{StripOf};
ghost use Rattle.registration.specs.Proposing.{rows_appended};
ghost use Rattle.strips.specs.Ready.{proposed_rows};

use registration::register::{append_row, proposed_row};
use strip_rows::rows::{HEAD_LENGTH, ROW_LENGTH, row_request};

// Puts the rows of the strip after the `count` that there are, and counts them.
pub fn append_rows(book: &mut [u8], count: u16, bytes: &[u8], n: usize)
    requires { (length book.old ≡ book_size) × StripOf bytes.now n × (count + n ≤ most_rows) }
    ensures { book.new ≡ rows_appended book.old count (proposed_rows bytes.now n) }
{
    for i in 0..n {
        let k = HEAD_LENGTH + ROW_LENGTH * i;
        let q = row_request(&bytes[k..k + ROW_LENGTH]);
        append_row(book, count + i as u16, proposed_row(q));
    }
}
