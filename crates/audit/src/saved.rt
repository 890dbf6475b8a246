// The rows saved at the opening of a batch against the present ones.
ghost use Rattle.std.specs.Prelude.{◌≡◌, ◌&&◌, ◌||◌, ◌+◌, ◌*◌, ◌≤◌, length, eqb};
ghost use Rattle.rules.specs.Registration.{pending, same_terms};
ghost use Rattle.image.specs.Valid.{follows};
ghost use Rattle.image.specs.Cells.{rows_from};
ghost use Rattle.image.specs.Layout.{row_width};

use crate::checks::all_pass;
use image::layout::ROW_WIDTH;
use image::rows::{row_at, same_terms};
use rules::Row;
use rules::statuses::PENDING;

// The saved row `x` can since have become `y`: a pending one may be confirmed or withdrawn, any other stays.
fn row_follows(x: Row, y: Row) -> bool
    ensures { result ≡ (same_terms x y && (eqb x.status y.status || pending x)) }
{
    same_terms(x, y) & ((x.status == y.status) | (x.status == PENDING))
}

// The `m` rows saved from `from` on are the first of the `n` present ones from `at` on, but for what became of pending ones.
pub fn rows_follow(s: &[u8], from: usize, m: usize, at: usize, n: usize) -> bool
    requires { (from + row_width * m ≤ length s.now) × (at + row_width * n ≤ length s.now) }
    ensures { result ≡ follows (rows_from s.now from m) (rows_from s.now at n) }
{
    if n < m {
        return false;
    }
    all_pass(
        m,
        |i| row_follows(
            row_at(s, from + ROW_WIDTH * i),
            row_at(s, at + ROW_WIDTH * i),
        ),
    )
}
