// The pending sums of the proposer by hour, with every row of the strip in.
ghost use Rattle.std.specs.Prelude.{◌≡◌, true, ◌++◌};
ghost use Rattle.image.specs.Valid.{is_sound, book_in};
ghost use Rattle.book.specs.Waits.{WaitsOf, no_waits};
ghost use Rattle.strips.specs.Ready.{ReadyStrip, proposer, proposed_rows};

use book::waits::{add_waiting, fill_waits};
use registration::register::proposed_row;
use strip_rows::rows::{HEAD_LENGTH, ROW_LENGTH, row_request};

// Adds the pending rows of the proposer, and then the rows of the strip, to a table of no rows.
pub fn fill_all_waits(table: &mut [u32], book: &[u8], bytes: &[u8], n: usize)
    requires { (table.old ≡ no_waits) × (is_sound book.now ≡ true) × ReadyStrip (book_in book.now) bytes.now n }
    ensures { let s = bytes.now in WaitsOf
        ((book_in book.now).part.rows ++ proposed_rows s n) (proposer s n) table.new }
{
    let first = row_request(&bytes[HEAD_LENGTH..HEAD_LENGTH + ROW_LENGTH]);
    fill_waits(table, book, first.account, first.other, first.code);
    for i in 0..n {
        let k = HEAD_LENGTH + ROW_LENGTH * i;
        let q = row_request(&bytes[k..k + ROW_LENGTH]);
        add_waiting(table, proposed_row(q));
    }
}
