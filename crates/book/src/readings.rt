// The readings: a net position, an exposure and an hourly exposure, of a sound book.
ghost use Rattle.std.specs.Prelude.{◌≡◌, true, not, ◌-◌, ◌^◌, ltb, if◌then◌else◌};
ghost use Rattle.units.specs.Units.{kwh};
ghost use Rattle.rules.specs.declared.Position.TheVariants.{Long, Short};
ghost use Rattle.rules.specs.Basics.{within};
ghost use Rattle.rules.specs.Readings.{net_reading, exposure_reading, hourly_exposure_reading};
ghost use Rattle.image.specs.Valid.{is_sound, book_in};

use crate::hourly::hourly_exposure;
use crate::positions::stored_net;
use crate::worth::exposure_with;
use rules::{Position, Refusal};
use setup::counts::counts;
use units::{Kwh, MilliCents};
use wire::signed::{HALF_U32, SignedWord};

// The number is not among those from 1 to `most`.
fn outside(number: u8, most: u8) -> bool
    ensures { result ≡ not (within 1 number most) }
{
    !((1 <= number) & (number <= most))
}

// The position that 4 bytes say in two's complement.
fn position_of(stored: u32) -> Position
    ensures { result ≡ (if ltb stored (2 ^ 31) then Long (kwh stored) else Short (kwh (2 ^ 32 - stored))) }
{
    if stored < HALF_U32 {
        return Position::Long(Kwh(stored));
    }
    Position::Short(Kwh(stored.minus()))
}

// The net position of an account in an hour.
pub fn net_in(book: &[u8], account: u8, hour: u8) -> Result<Position, Refusal>
    requires { is_sound book.now ≡ true }
    ensures { result ≡ net_reading (book_in book.now) account hour }
{
    let n = counts(book);
    if outside(account, n.accounts) {
        return Err(Refusal::OutOfRange { bit: 1 });
    }
    if outside(hour, n.hours) {
        return Err(Refusal::OutOfRange { bit: 5 });
    }
    Ok(position_of(stored_net(book, account, hour)))
}

// The exposure of an operator.
pub fn exposure_in(book: &[u8], operator: u8) -> Result<MilliCents, Refusal>
    requires { is_sound book.now ≡ true }
    ensures { result ≡ exposure_reading (book_in book.now) operator }
{
    let n = counts(book);
    if outside(operator, n.operators) {
        return Err(Refusal::OutOfRange { bit: 9 });
    }
    Ok(exposure_with(book, operator, None))
}

// The hourly exposure of an operator.
pub fn hourly_exposure_in(book: &[u8], operator: u8, hour: u8) -> Result<MilliCents, Refusal>
    requires { is_sound book.now ≡ true }
    ensures { result ≡ hourly_exposure_reading (book_in book.now) operator hour }
{
    let n = counts(book);
    if outside(hour, n.hours) {
        return Err(Refusal::OutOfRange { bit: 5 });
    }
    if outside(operator, n.operators) {
        return Err(Refusal::OutOfRange { bit: 9 });
    }
    Ok(hourly_exposure(book, operator, hour))
}
