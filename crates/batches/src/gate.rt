// The gate: closing it withdraws all pending rows and ends registration.
ghost use Rattle.std.specs.Prelude.{◌≡◌, true, ◌+◌, ◌*◌, ◌≤◌, length, take, drop};
ghost use Rattle.wire.specs.Regions.{splice};
ghost use Rattle.wire.specs.Parts.{sweep};
ghost use Rattle.rules.specs.declared.Request.{Request};
ghost use Rattle.rules.specs.Requests.{close_gate};
ghost use Rattle.image.specs.Layout.{row_width};
ghost use Rattle.image.specs.Changes.{ended};
ghost use Rattle.image.specs.Valid.{is_sound, book_in, book_bytes};
ghost use Rattle.book.specs.Kinds.{outcome_on, book_after};

use crate::saving::outside_batch;
use book::state::row_count;
use image::layout::{PHASE_OFFSET, PRESENT_OFFSET, ROW_WIDTH, ROWS_OFFSET};
use image::rows::STATUS_OFFSET;
use rules::Refusal;
use rules::phases::SCHEDULES;
use rules::statuses::{PENDING, WITHDRAWN};
use wire::numbers::{get, put};

// Withdraws the row at `at` if it is pending.
fn end_row(s: &mut [u8], at: usize)
    requires { at + row_width ≤ length s.old }
    ensures { s.new ≡ splice s.old at (ended (take row_width (drop at s.old))) }
{
    if get::<u8>(s, at + STATUS_OFFSET) == PENDING {
        put(s, at + STATUS_OFFSET, WITHDRAWN);
    }
}

// Withdraws each of the `n` rows from `from` on that is pending.
fn end_rows(s: &mut [u8], from: usize, n: u16)
    requires { from + row_width * n ≤ length s.old }
    ensures { s.new ≡ sweep ended row_width s.old from n }
{
    for i in 0..n as usize {
        end_row(s, from + ROW_WIDTH * i);
    }
}

// Kind 8: withdraws all pending rows and goes over to schedules.
pub fn close_gate(book: &mut [u8]) -> Result<u16, Refusal>
    requires { is_sound book.old ≡ true }
    ensures answer { (q : Request) → result ≡ outcome_on close_gate (book_in book.old) q }
    ensures bytes { (q : Request) → book.new ≡ book_bytes (book_after close_gate (book_in book.old) q) }
    ensures still { is_sound book.new ≡ true }
{
    outside_batch(book)?;
    let n = row_count(book);
    end_rows(book, PRESENT_OFFSET + ROWS_OFFSET, n);
    put(book, PHASE_OFFSET, SCHEDULES);
    Ok(0)
}
