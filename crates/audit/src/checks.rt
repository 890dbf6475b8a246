// The tests of rows, schedules and guarantees, one by one and side by side in bytes.
ghost use Rattle.std.specs.Prelude.{◌≡◌, ℕ, Bool, not, ◌+◌, ◌*◌, ◌≤◌, ◌<◌, length, leb};
ghost use Rattle.rules.specs.Basics.{any_passes, every, counting};
ghost use Rattle.rules.specs.Limits.{most_guarantee};
ghost use Rattle.rules.specs.Books.{Setup, account_count, point_count, periods};
ghost use Rattle.rules.specs.Registration.{pending};
ghost use Rattle.rules.specs.Opening.{guarantee_width};
ghost use Rattle.image.specs.Valid.{row_ok, schedule_ok};
ghost use Rattle.image.specs.Cells.{rows_from, schedules_from, guarantees_from};
ghost use Rattle.image.specs.Layout.{row_width, schedule_width};

use image::layout::{ROW_WIDTH, SCHEDULE_WIDTH};
use image::rows::row_at;
use image::schedules::schedule_at;
use rules::limits::{MOST_ENERGY, MOST_GUARANTEE, MOST_PRICE};
use rules::sides::{BUYS, INJECTS, SELLS, WITHDRAWS};
use rules::statuses::{PENDING, WITHDRAWN};
use rules::{Row, Schedule};
use setup::counts::GUARANTEE_WIDTH;
use wire::numbers::get;

// Every field of the row is in range, and its two accounts differ.
pub fn row_ok(r: Row, accounts: u8, hours: u8) -> bool
    ensures { (u : Setup) → account_count u ≡ accounts → periods u ≡ hours → result ≡ row_ok u r }
{
    ((1 <= r.proposer) & (r.proposer <= accounts))
        & ((1 <= r.counterparty) & (r.counterparty <= accounts))
        & (r.proposer != r.counterparty)
        & ((SELLS <= r.side) & (r.side <= BUYS))
        & ((1 <= r.first) & (r.first <= hours))
        & ((r.first <= r.last) & (r.last <= hours))
        & ((1 <= r.quantity.0) & (r.quantity.0 <= MOST_ENERGY))
        & ((PENDING <= r.status) & (r.status <= WITHDRAWN))
}

// Every field of the schedule is in range.
pub fn schedule_ok(x: Schedule, points: u8, hours: u8) -> bool
    ensures { (u : Setup) → point_count u ≡ points → periods u ≡ hours → result ≡ schedule_ok u x }
{
    ((1 <= x.point) & (x.point <= points))
        & ((INJECTS <= x.side) & (x.side <= WITHDRAWS))
        & ((1 <= x.hour) & (x.hour <= hours))
        & ((1 <= x.quantity.0) & (x.quantity.0 <= MOST_ENERGY))
        & (x.price.0 <= MOST_PRICE)
}

// The test passes at each number below `n`. No number is passed over, not even after one that fails, so that many are tested at once.
pub(crate) fn all_pass<F: Fn(usize) -> bool>(n: usize, test: F) -> bool
    requires { (i : ℕ) → i < n → F.pre test i }
    ensures { (p : ℕ → Bool) → ((i : ℕ) → i < n → (t : Bool) → F.post test i t → t ≡ p i) → result ≡ every p (counting n 0) }
{
    let mut ok = true;
    for i in 0..n {
        ok = ok & test(i);
    }
    ok
}

// Each of the `n` rows from `at` on is in range.
pub fn rows_ok(s: &[u8], at: usize, n: usize, accounts: u8, hours: u8) -> bool
    requires { at + row_width * n ≤ length s.now }
    ensures { (u : Setup) → account_count u ≡ accounts → periods u ≡ hours → result ≡ every (row_ok u) (rows_from s.now at n) }
{
    all_pass(
        n,
        |i| row_ok(row_at(s, at + ROW_WIDTH * i), accounts, hours),
    )
}

// Each of the `n` schedules from `at` on is in range.
pub fn schedules_ok(s: &[u8], at: usize, n: usize, points: u8, hours: u8) -> bool
    requires { at + schedule_width * n ≤ length s.now }
    ensures { (u : Setup) → point_count u ≡ points → periods u ≡ hours → result ≡ every (schedule_ok u) (schedules_from s.now at n) }
{
    all_pass(
        n,
        |i| schedule_ok(schedule_at(s, at + SCHEDULE_WIDTH * i), points, hours),
    )
}

// None of the `n` rows from `at` on is pending.
pub fn none_pending(s: &[u8], at: usize, n: usize) -> bool
    requires { at + row_width * n ≤ length s.now }
    ensures { result ≡ not (any_passes pending (rows_from s.now at n)) }
{
    all_pass(n, |i| row_at(s, at + ROW_WIDTH * i).status != PENDING)
}

// None of the `n` guarantees from `at` on is too great.
pub fn guarantees_ok(s: &[u8], at: usize, n: usize) -> bool
    requires { at + guarantee_width * n ≤ length s.now }
    ensures { result ≡ every (λ g. leb g.0 most_guarantee) (guarantees_from s.now at n) }
{
    all_pass(
        n,
        |i| get::<u64>(s, at + GUARANTEE_WIDTH * i) <= MOST_GUARANTEE,
    )
}
