// The values of one entry: the lowest offset of those that are out of range.
ghost use Rattle.std.specs.Prelude.{◌≡◌, [], ◌∷◌, ◌+◌, ◌*◌, ◌≤◌, ◌<◌, ◌^◌, length, take, drop};
ghost use Rattle.rules.specs.Basics.{nth};
ghost use Rattle.rules.specs.Books.{no_account};
ghost use Rattle.rules.specs.Opening.{account_in, accounts_in, estimate_values, operator_values, margin_values, account_values, point_values, account_entry, margin_width, price_width, operator_entry, point_entry};
ghost use Rattle.setup.specs.Faults.{first_fault, margins_fine, margin_faults, most_amount, amount_values, Shaped};

use crate::counts::{GUARANTEE_WIDTH, LOWER_OFFSET, MARGIN_WIDTH, account_offset};
use crate::entries::margin_at;
use rules::limits::{MOST_ENERGY, MOST_GUARANTEE, MOST_PRICE, THOUSAND};
use rules::sites::{INJECTION, MIXED, WITHDRAWAL};
use rules::{Counts, Operator, Point, Refusal};
use units::{CentsPerMwh, Kwh};
use wire::numbers::get;

// Refused for the value at `at`, unless it is in range.
fn in_range(fine: bool, at: usize) -> Result<(), Refusal>
    requires { at < 2 ^ 16 }
    ensures { result ≡ first_fault ((at, fine) ∷ []) }
{
    if fine {
        return Ok(());
    }
    Err(Refusal::SetupValue { offset: at as u16 })
}

// The fault of the price at `at`.
pub fn estimate_fault(x: CentsPerMwh, at: usize) -> Result<(), Refusal>
    requires { at + price_width ≤ 2 ^ 16 }
    ensures { result ≡ first_fault (estimate_values at x) }
{
    in_range(x.0 <= MOST_PRICE, at)
}

// The first fault of the operator at `at`.
pub fn operator_fault(x: Operator, at: usize) -> Result<(), Refusal>
    requires { at + operator_entry ≤ 2 ^ 16 }
    ensures { result ≡ first_fault (operator_values at x) }
{
    in_range(x.guarantee.0 <= MOST_GUARANTEE, at)?;
    in_range(x.maintenance <= THOUSAND, at + GUARANTEE_WIDTH)
}

// The fault of the margin at `at`.
fn margin_fault(x: Kwh, at: usize) -> Result<(), Refusal>
    requires { at + margin_width ≤ 2 ^ 16 }
    ensures { result ≡ first_fault (margin_values at x) }
{
    in_range(x.0 <= MOST_ENERGY, at)
}

// Whether so many margins side by side, from `from` on, are all in range. Nothing branches on one, so that several are tested at once.
fn margins_fine(setup: &[u8], from: usize, count: usize) -> bool
    requires { from + margin_width * count ≤ length setup.now }
    ensures { result ≡ margins_fine setup.now from count }
{
    let mut fine = true;
    for k in 0..count {
        let x = margin_at(setup, from + MARGIN_WIDTH * k);
        fine = fine & (x.0 <= MOST_ENERGY);
    }
    fine
}

// The first fault of so many margins side by side, from `from` on.
fn margin_faults(setup: &[u8], from: usize, count: usize) -> Result<(), Refusal>
    requires { (from + margin_width * count ≤ length setup.now) × (length setup.now ≤ 2 ^ 16) }
    ensures { result ≡ margin_faults setup.now from count }
{
    if margins_fine(setup, from, count) {
        return Ok(());
    }
    for k in 0..count {
        let at = from + MARGIN_WIDTH * k;
        margin_fault(margin_at(setup, at), at)?;
    }
    Ok(())
}

// The first fault of the account at `at`, in a set-up of these counts. Its margins stand side by side, the upper ones past the lower ones.
pub fn account_fault(setup: &[u8], n: Counts, at: usize) -> Result<(), Refusal>
    requires { Shaped n setup.now × (at + account_entry n ≤ length setup.now) }
    ensures { result ≡ first_fault (account_values n at (account_in n (take (account_entry n) (drop at setup.now)))) }
{
    let operator = get::<u8>(setup, at);
    let kind = get::<u8>(setup, at + 1);
    in_range((1 <= operator) & (operator <= n.operators), at)?;
    in_range((INJECTION <= kind) & (kind <= WITHDRAWAL), at + 1)?;
    margin_faults(setup, at + LOWER_OFFSET, 2 * (n.hours as usize))
}

// The kind of the account of a number; 0 for a number that none has, as the clause says: no point has that kind.
fn kind_of(setup: &[u8], n: Counts, number: u8) -> u8
    requires { Shaped n setup.now }
    ensures { result ≡ (nth (accounts_in setup.now) number no_account).kind }
{
    if number < 1 {
        return 0;
    }
    if n.accounts < number {
        return 0;
    }
    get::<u8>(setup, account_offset(n, number) + 1)
}

// 0 in a direction that is barred.
fn most_amount(barred: bool) -> u32
    ensures { result ≡ most_amount barred }
{
    if barred { 0 } else { MOST_ENERGY }
}

// The first fault of the amounts of the point at `at`: its kind may bar a direction.
fn amounts_fault(x: Point, at: usize) -> Result<(), Refusal>
    requires { at + point_entry ≤ 2 ^ 16 }
    ensures { result ≡ first_fault (amount_values at x) }
{
    in_range(x.injection.0 <= most_amount(x.kind == WITHDRAWAL), at + 3)?;
    in_range(x.withdrawal.0 <= most_amount(x.kind == INJECTION), at + 7)
}

// The first fault of the point at `at`, in a set-up of these counts.
pub fn point_fault(setup: &[u8], n: Counts, x: Point, at: usize) -> Result<(), Refusal>
    requires { Shaped n setup.now × (at + point_entry ≤ 2 ^ 16) }
    ensures { result ≡ first_fault (point_values (accounts_in setup.now) n.zones at x) }
{
    let own = kind_of(setup, n, x.account);
    let suits = (x.kind == MIXED) | (x.kind == own);
    let known = (INJECTION <= x.kind) & (x.kind <= MIXED);
    in_range((1 <= x.account) & (x.account <= n.accounts), at)?;
    in_range(known & suits, at + 1)?;
    in_range((1 <= x.zone) & (x.zone <= n.zones), at + 2)?;
    amounts_fault(x, at)
}
