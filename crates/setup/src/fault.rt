// What is wrong with set-up bytes: their shape, then the lowest offset of a value that is out of range.
ghost use Rattle.std.specs.Prelude.{◌≡◌};
ghost use Rattle.rules.specs.Verdicts.{checked};
ghost use Rattle.rules.specs.Opening.{operators_in, values, setup_of, setup_refusal};
ghost use Rattle.setup.specs.Faults.{first_fault, estimate_faults, operator_faults, account_faults, point_faults, Shaped};

use crate::counts::{
    COUNTS_WIDTH, OPERATOR_ENTRY, POINT_ENTRY, PRICE_WIDTH, account_offset, counts,
    operators_offset, points_offset,
};
use crate::entries::{operator_at, point_at, price_at};
use crate::shape::misshapen;
use crate::values::{account_fault, estimate_fault, operator_fault, point_fault};
use rules::{Counts, Refusal};

// The lowest offset of an estimate that is out of range.
fn estimate_faults(setup: &[u8], n: Counts) -> Result<(), Refusal>
    requires { Shaped n setup.now }
    ensures { result ≡ estimate_faults setup.now }
{
    for hour in 0..n.hours {
        let at = COUNTS_WIDTH + PRICE_WIDTH * (hour as usize);
        estimate_fault(price_at(setup, at), at)?;
    }
    Ok(())
}

// The lowest offset of an operator's value that is out of range.
fn operator_faults(setup: &[u8], n: Counts) -> Result<(), Refusal>
    requires { Shaped n setup.now }
    ensures { result ≡ operator_faults setup.now }
{
    let from = operators_offset(n);
    for operator in 0..n.operators {
        let at = from + OPERATOR_ENTRY * (operator as usize);
        operator_fault(operator_at(setup, at), at)?;
    }
    Ok(())
}

// The lowest offset of an account's value that is out of range.
fn account_faults(setup: &[u8], n: Counts) -> Result<(), Refusal>
    requires { Shaped n setup.now }
    ensures { result ≡ account_faults setup.now }
{
    for number in 1..=n.accounts {
        account_fault(setup, n, account_offset(n, number))?;
    }
    Ok(())
}

// The lowest offset of a point's value that is out of range.
fn point_faults(setup: &[u8], n: Counts) -> Result<(), Refusal>
    requires { Shaped n setup.now }
    ensures { result ≡ point_faults setup.now }
{
    let from = points_offset(n);
    for point in 0..n.points {
        let at = from + POINT_ENTRY * (point as usize);
        point_fault(setup, n, point_at(setup, at), at)?;
    }
    Ok(())
}

// The lowest offset of a value that is out of range.
fn value_fault(setup: &[u8], n: Counts) -> Result<(), Refusal>
    requires { Shaped n setup.now }
    ensures { result ≡ first_fault (values (setup_of setup.now) (operators_in setup.now)) }
{
    estimate_faults(setup, n)?;
    operator_faults(setup, n)?;
    account_faults(setup, n)?;
    point_faults(setup, n)
}

// What set-up bytes are refused for: their shape (8), or the lowest offset of a value at fault (9).
pub fn fault(setup: &[u8]) -> Result<(), Refusal>
    ensures { result ≡ checked (setup_refusal setup.now) }
{
    if misshapen(setup) {
        return Err(Refusal::SetupShape);
    }
    value_fault(setup, counts(setup))
}
