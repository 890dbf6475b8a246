// The fields of a request compared with a book's counts: which is out of range, and whether both accounts are the same.
ghost use Rattle.std.specs.Prelude.{◌≡◌, not};
ghost use Rattle.rules.specs.declared.Refusal.TheVariants.{OutOfRange, SameAccount};
ghost use Rattle.rules.specs.Verdicts.{◌⇒◌, ◌⇒↑◌, applies, first_to_apply, checked};
ghost use Rattle.rules.specs.Requests.{wanted_map, faulty_bit, range_checks};

use crate::checks::fails_if;
use rules::kinds::{
    ASK, CLOSE_GATE, COMMIT, CONFIRM, GUARANTEE, OPEN_BATCH, REGISTER, SCHEDULE, SETTLE, STRIP,
    WITHDRAW,
};
use rules::limits::{MOST_ENERGY, MOST_GUARANTEE, MOST_PRICE, MOST_ROWS};
use rules::sides::{BUYS, INJECTS, SELLS, WITHDRAWS};
use rules::{Counts, Refusal, Request};

// Refused for the field of that bit, unless it is in range.
fn field(good: bool, bit: u8) -> Result<(), Refusal>
    ensures { result ≡ checked (applies (not good ⇒ OutOfRange bit)) }
{
    fails_if(!good, Refusal::OutOfRange { bit })
}

// The fields of a trade: accounts, side, hours and quantity.
pub fn trade_ranges(q: Request, n: Counts) -> Result<(), Refusal>
    requires { wanted_map q.kind ≡ 0x00FF }
    ensures { result ≡ checked (applies (faulty_bit n q ⇒↑ OutOfRange)) }
{
    field((1 <= q.account) & (q.account <= n.accounts), 1)?;
    field((1 <= q.other) & (q.other <= n.accounts), 2)?;
    field((SELLS <= q.side) & (q.side <= BUYS), 4)?;
    field((1 <= q.first) & (q.first <= n.hours), 5)?;
    field((q.first <= q.last) & (q.last <= n.hours), 6)?;
    field((1 <= q.quantity.0) & (q.quantity.0 <= MOST_ENERGY), 7)
}

// The fields of a trade, and that its accounts are two.
fn trade_fields(q: Request, n: Counts) -> Result<(), Refusal>
    requires { wanted_map q.kind ≡ 0x00FF }
    ensures { result ≡ checked (first_to_apply (range_checks n q)) }
{
    trade_ranges(q, n)?;
    fails_if(q.account == q.other, Refusal::SameAccount)
}

// The fields of a withdrawal: account and number.
fn withdrawal_fields(q: Request, n: Counts) -> Result<(), Refusal>
    requires { wanted_map q.kind ≡ 0x0103 }
    ensures { result ≡ checked (first_to_apply (range_checks n q)) }
{
    field((1 <= q.account) & (q.account <= n.accounts), 1)?;
    field((1 <= q.number) & (q.number <= MOST_ROWS), 8)
}

// The fields of a guarantee: operator and amount.
fn guarantee_fields(q: Request, n: Counts) -> Result<(), Refusal>
    requires { wanted_map q.kind ≡ 0x0601 }
    ensures { result ≡ checked (first_to_apply (range_checks n q)) }
{
    field((1 <= q.operator) & (q.operator <= n.operators), 9)?;
    field(q.guarantee.0 <= MOST_GUARANTEE, 10)
}

// The fields of a schedule: side, hour, quantity, point and price.
fn schedule_fields(q: Request, n: Counts) -> Result<(), Refusal>
    requires { wanted_map q.kind ≡ 0x18B1 }
    ensures { result ≡ checked (first_to_apply (range_checks n q)) }
{
    field((INJECTS <= q.side) & (q.side <= WITHDRAWS), 4)?;
    field((1 <= q.first) & (q.first <= n.hours), 5)?;
    field((1 <= q.quantity.0) & (q.quantity.0 <= MOST_ENERGY), 7)?;
    field((1 <= q.point) & (q.point <= n.points), 11)?;
    field(q.price.0 <= MOST_PRICE, 12)
}

// The lowest field out of range of a book with these counts, else both accounts the same.
pub fn check_ranges(request: Request, counts: Counts) -> Result<(), Refusal>
    ensures { result ≡ checked (first_to_apply (range_checks counts request)) }
{
    let kind = request.kind;
    match kind {
        REGISTER | CONFIRM | ASK | COMMIT => trade_fields(request, counts),
        WITHDRAW => withdrawal_fields(request, counts),
        GUARANTEE => guarantee_fields(request, counts),
        OPEN_BATCH..=CLOSE_GATE => Ok(()),
        SCHEDULE => schedule_fields(request, counts),
        SETTLE..=STRIP => Ok(()),
        _ => Ok(()),
    }
}
