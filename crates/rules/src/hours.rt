// What an account holds in an hour, after one trade more.
ghost use Rattle.std.specs.Prelude.{◌≡◌, ◌&&◌, ◌+◌, ◌-◌, ◌≤◌, eqb, if◌then◌else◌};
ghost use Rattle.rules.specs.Registration.{confirmed, includes_hour, buyer, seller, counted, moves, pending_of, after_trade, keeps_margins};
ghost use Rattle.rules.specs.Widths.{NetFits, HourFits};

use crate::sides::{BUYS, SELLS};
use crate::statuses::{CONFIRMED, PENDING};
use crate::{AccountHour, Margins, Net, Row};
use units::Kwh;

// The energy where the test holds, else none.
fn part(on: bool, quantity: Kwh) -> Kwh
    ensures { (result.0 ≡ (if on then quantity.0 else 0)) × (result.0 ≤ quantity.0) }
{
    if on { quantity } else { Kwh(0) }
}

// What a confirmed row moves in the hour, where that party of it is the account.
fn moved(r: Row, party: u8, account: u8, hour: u8) -> Kwh
    ensures meaning { result.0 ≡ (if confirmed r && includes_hour hour r && eqb party account then r.quantity.0 else 0) }
    ensures bounded { result.0 ≤ r.quantity.0 }
{
    part(
        (r.status == CONFIRMED) & ((r.first <= hour) & (hour <= r.last)) & (party == account),
        r.quantity,
    )
}

// What a pending row of the account's own adds to its pending rows of that side in the hour.
pub fn waiting(r: Row, account: u8, hour: u8, side: u8) -> Kwh
    ensures meaning { result.0 ≡ counted (pending_of side account hour) r }
    ensures bounded { result.0 ≤ r.quantity.0 }
{
    part(
        (r.status == PENDING)
            & ((r.first <= hour) & (hour <= r.last))
            & (r.proposer == account)
            & (r.side == side),
        r.quantity,
    )
}

// A net position after the trade.
fn moved_net(net: Net, trade: Row, account: u8, hour: u8) -> Net
    requires { NetFits net trade }
    ensures bought { result.bought.0 ≡ net.bought.0 + counted (moves buyer account hour) trade }
    ensures sold { result.sold.0 ≡ net.sold.0 + counted (moves seller account hour) trade }
{
    let buyer = trade.buyer();
    let seller = trade.seller();
    let bought = moved(trade, buyer, account, hour);
    let sold = moved(trade, seller, account, hour);
    Net {
        bought: net.bought + bought,
        sold: net.sold + sold,
    }
}

impl AccountHour {
    // The hour after the trade.
    pub fn after_trade(self, trade: Row, account: u8, hour: u8) -> AccountHour
        requires { HourFits self trade }
        ensures { result ≡ after_trade account hour self trade }
    {
        let net = moved_net(self.net, trade, account, hour);
        let sales = waiting(trade, account, hour, SELLS);
        let purchases = waiting(trade, account, hour, BUYS);
        AccountHour {
            net,
            sales: self.sales + sales,
            purchases: self.purchases + purchases,
        }
    }
}

// What of a net position lies below zero.
pub fn short(net: Net) -> Kwh
    ensures { result.0 ≡ net.sold.0 - net.bought.0 }
{
    net.sold.above(net.bought)
}

// Whether both margins are kept.
pub fn keeps_margins(margins: Margins, x: AccountHour) -> bool
    ensures { result ≡ keeps_margins margins x }
{
    let bought = x.net.bought.0 as u64;
    let sold = x.net.sold.0 as u64;
    let sales = x.sales.0 as u64;
    let purchases = x.purchases.0 as u64;
    let lower = margins.lower.0 as u64;
    let upper = margins.upper.0 as u64;
    (sold + sales <= bought + lower) & (bought + purchases <= sold + upper)
}
