// The entries of a set-up: read at an offset, and by number.
ghost use Rattle.std.specs.Prelude.{◌≡◌, ◌+◌, ◌≤◌, length, take, drop};
ghost use Rattle.units.specs.Units.{cents_per_mwh};
ghost use Rattle.rules.specs.Basics.{nth};
ghost use Rattle.rules.specs.Books.{no_point, operator_of, margins_at};
ghost use Rattle.rules.specs.Opening.{counts_in, price_in, operator_in, margin_in, point_in, estimates_in, operators_in, points_in, setup_of, price_width, operator_entry, margin_width, point_entry};
ghost use Rattle.setup.specs.Faults.{Whole, no_operator};

use crate::counts::{
    COUNTS_WIDTH, GUARANTEE_WIDTH, LOWER_OFFSET, MARGIN_WIDTH, OPERATOR_ENTRY, POINT_ENTRY,
    PRICE_WIDTH, account_offset, counts, margins_length, operators_offset, points_offset,
};
use rules::{Margins, Operator, Point};
use units::{Cents, CentsPerMwh, Kwh};
use wire::numbers::get;

// The price in the bytes from `at` on.
pub fn price_at(bytes: &[u8], at: usize) -> CentsPerMwh
    requires { at + price_width ≤ length bytes.now }
    ensures { result ≡ price_in (take price_width (drop at bytes.now)) }
{
    CentsPerMwh(get::<u32>(bytes, at))
}

// The operator in the bytes from `at` on.
pub fn operator_at(bytes: &[u8], at: usize) -> Operator
    requires { at + operator_entry ≤ length bytes.now }
    ensures { result ≡ operator_in (take operator_entry (drop at bytes.now)) }
{
    Operator {
        guarantee: Cents(get::<u64>(bytes, at)),
        maintenance: get::<u16>(bytes, at + GUARANTEE_WIDTH),
    }
}

// The margin in the bytes from `at` on.
pub fn margin_at(bytes: &[u8], at: usize) -> Kwh
    requires { at + margin_width ≤ length bytes.now }
    ensures { result ≡ margin_in (take margin_width (drop at bytes.now)) }
{
    Kwh(get::<u32>(bytes, at))
}

// The point in the bytes from `at` on.
pub fn point_at(bytes: &[u8], at: usize) -> Point
    requires { at + point_entry ≤ length bytes.now }
    ensures { result ≡ point_in (take point_entry (drop at bytes.now)) }
{
    Point {
        account: get::<u8>(bytes, at),
        kind: get::<u8>(bytes, at + 1),
        zone: get::<u8>(bytes, at + 2),
        injection: Kwh(get::<u32>(bytes, at + 3)),
        withdrawal: Kwh(get::<u32>(bytes, at + 7)),
    }
}

// The estimated price of an hour, from 1.
pub fn estimate(setup: &[u8], hour: u8) -> CentsPerMwh
    requires { Whole setup.now × (1 ≤ hour) × (hour ≤ (counts_in setup.now).hours) }
    ensures { result ≡ nth (estimates_in setup.now) hour (cents_per_mwh 0) }
{
    price_at(setup, COUNTS_WIDTH + PRICE_WIDTH * (hour as usize - 1))
}

// The operator of a number, from 1.
pub fn operator(setup: &[u8], number: u8) -> Operator
    requires { Whole setup.now × (1 ≤ number) × (number ≤ (counts_in setup.now).operators) }
    ensures { result ≡ nth (operators_in setup.now) number no_operator }
{
    let from = operators_offset(counts(setup));
    operator_at(setup, from + OPERATOR_ENTRY * (number as usize - 1))
}

// The operator of the account of a number, from 1.
pub fn account_operator(setup: &[u8], number: u8) -> u8
    requires { Whole setup.now × (1 ≤ number) × (number ≤ (counts_in setup.now).accounts) }
    ensures { result ≡ operator_of (setup_of setup.now) number }
{
    get::<u8>(setup, account_offset(counts(setup), number))
}

// The margins of an account in an hour, both by their numbers, from 1.
pub fn margins(setup: &[u8], number: u8, hour: u8) -> Margins
    requires whole { Whole setup.now × (1 ≤ number) × (number ≤ (counts_in setup.now).accounts) }
    requires in_day { (1 ≤ hour) × (hour ≤ (counts_in setup.now).hours) }
    ensures { result ≡ margins_at (setup_of setup.now) number hour }
{
    let n = counts(setup);
    let entry = account_offset(n, number);
    let lower = entry + LOWER_OFFSET + MARGIN_WIDTH * (hour as usize - 1);
    let upper = lower + margins_length(n);
    Margins {
        lower: margin_at(setup, lower),
        upper: margin_at(setup, upper),
    }
}

// The point of a number, from 1.
pub fn point(setup: &[u8], number: u8) -> Point
    requires { Whole setup.now × (1 ≤ number) × (number ≤ (counts_in setup.now).points) }
    ensures { result ≡ nth (points_in setup.now) number no_point }
{
    let from = points_offset(counts(setup));
    point_at(setup, from + POINT_ENTRY * (number as usize - 1))
}
