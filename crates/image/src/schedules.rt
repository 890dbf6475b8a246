// Schedules in bytes: where each field stands in a schedule, and a schedule read and written.
ghost use Rattle.std.specs.Prelude.{◌≡◌, ◌+◌, ◌≤◌, length, take, drop};
ghost use Rattle.image.specs.Layout.{schedule_width};
ghost use Rattle.image.specs.Image.{schedule_in, schedule_bytes};

use crate::layout::{QUANTITY_WIDTH, SCHEDULE_WIDTH};
use rules::Schedule;
use units::{CentsPerMwh, Kwh};
use wire::numbers::{get, put};

// Where a field stands in a schedule, which begins with its point.
pub const SIDE_OFFSET: usize = 1;

pub const HOUR_OFFSET: usize = SIDE_OFFSET + 1;

pub const QUANTITY_OFFSET: usize = HOUR_OFFSET + 1;

pub const PRICE_OFFSET: usize = QUANTITY_OFFSET + QUANTITY_WIDTH;

// The schedule in the bytes from `at` on.
pub fn schedule_at(s: &[u8], at: usize) -> Schedule
    requires { at + schedule_width ≤ length s.now }
    ensures { result ≡ schedule_in (take schedule_width (drop at s.now)) }
{
    Schedule {
        point: get::<u8>(s, at),
        side: get::<u8>(s, at + SIDE_OFFSET),
        hour: get::<u8>(s, at + HOUR_OFFSET),
        quantity: Kwh(get::<u32>(s, at + QUANTITY_OFFSET)),
        price: CentsPerMwh(get::<u32>(s, at + PRICE_OFFSET)),
    }
}

// The bytes of a schedule.
pub fn schedule_bytes(x: Schedule) -> [u8; SCHEDULE_WIDTH]
    ensures { result ≡ schedule_bytes x }
{
    let mut b = [0; SCHEDULE_WIDTH];
    put(&mut b, 0, x.point);
    put(&mut b, SIDE_OFFSET, x.side);
    put(&mut b, HOUR_OFFSET, x.hour);
    put(&mut b, QUANTITY_OFFSET, x.quantity.0);
    put(&mut b, PRICE_OFFSET, x.price.0);
    b
}
