// The result of a schedule at settlement, and the table of what is used up of the limits of points and accounts.
ghost use Rattle.std.specs.Prelude.{◌≡◌, true, ◌||◌, ◌+◌, ◌-◌, ◌*◌, ◌^◌, ◌≤◌, ◌<◌, eqb, ltb, length, get_or, set, if◌then◌else◌};
ghost use Rattle.rules.specs.Limits.{most_points, most_accounts};
ghost use Rattle.rules.specs.Opening.{price_width};
ghost use Rattle.image.specs.Valid.{is_sound};
ghost use Rattle.image.specs.Tables.{Room};
ghost use Rattle.valuation.specs.Tables.{Priced, OnPoint, setup_in, numbered_price, cell_for, used_cells};
ghost use Rattle.valuation.specs.Congruity.{InCells, nothing_used, greatest, left_by, over_point, over_account, price_number, taken_at, result_number, result_by, ResultIn, UsedWith};

use crate::prices::price;
use book::positions::net_at;
use rules::limits::{MOST_ACCOUNTS, MOST_POINTS, PERIODS};
use rules::sides::INJECTS;
use rules::sites::MIXED;
use rules::{Net, Point, Schedule};
use setup::counts::counts;
use units::{CentsPerMwh, Kwh};

// The result of a schedule. In the order of their numbers, 0 to 3.
#[derive(Clone, Copy)]
pub enum Judgement {
    Registered,
    OverPoint,
    OverAccount,
    NotTaken,
}

impl Judgement {
    // The number by which settle gives a result.
    pub fn number(self) -> u8
        ensures { (result ≡ result_number self) × (result ≤ 3) }
    {
        self as u8
    }
}

// The table of what is used up: the cells of one holder of a limit, of all points, and of the whole.
const HOLDER_CELLS: usize = 2 * PERIODS;

const POINT_CELLS: usize = HOLDER_CELLS * (MOST_POINTS as usize);

pub const USED_SIZE: usize = POINT_CELLS + HOLDER_CELLS * (MOST_ACCOUNTS as usize);

// The cell of the holder of a limit, which is a point or an account, in the schedule's hour and side.
fn cell_for(holder: u8, x: Schedule) -> usize
    requires { InCells most_points holder x }
    ensures { result ≡ cell_for holder x }
{
    HOLDER_CELLS * (holder as usize - 1) + (2 * (x.hour as usize - 1) + (x.side as usize - 1))
}

// The point's greatest amount on a side.
fn point_limit(point: Point, side: u8) -> Kwh
    ensures { result.0 ≡ greatest point side }
{
    if side == INJECTS {
        return point.injection;
    }
    point.withdrawal
}

// What a net position leaves for a side.
fn account_limit(net: Net, side: u8) -> Kwh
    ensures { result.0 ≡ left_by net side }
{
    if side == INJECTS {
        return net.sold.above(net.bought);
    }
    net.bought.above(net.sold)
}

// Whether the quantity, with what is used up before it, passes the limit.
fn passes(limit: Kwh, before: u32, quantity: Kwh) -> bool
    ensures { result ≡ ltb limit.0 (before + quantity.0) }
{
    (limit.0 as u64) < (before as u64) + (quantity.0 as u64)
}

// Whether a schedule passes what is left of its point's greatest amount.
fn over_point(used: &[u32], x: Schedule, point: Point) -> bool
    requires { (length used.now ≡ used_cells) × InCells most_points x.point x }
    ensures { result ≡ over_point used.now point x }
{
    let k = cell_for(x.point, x);
    let limit = point_limit(point, x.side);
    passes(limit, used[k], x.quantity)
}

// Whether a schedule passes what is left of its account's net position.
fn over_account(book: &[u8], used: &[u32], x: Schedule, point: Point) -> bool
    requires { (is_sound book.now ≡ true) × OnPoint (setup_in book.now) point x × (length used.now ≡ used_cells) }
    ensures { result ≡ over_account book.now used.now point x }
{
    let k = POINT_CELLS + cell_for(point.account, x);
    let net = net_at(book, point.account, x.hour);
    let limit = account_limit(net, x.side);
    passes(limit, used[k], x.quantity)
}

// The number, in the price table, of the price that a schedule on the point meets.
fn price_number(hours: u8, point: Point, x: Schedule) -> usize
    ensures { result ≡ price_number hours point x }
{
    if (x.side == INJECTS) | (point.kind == MIXED) {
        return (hours as usize) * (point.zone as usize) + x.hour as usize;
    }
    x.hour as usize
}

// Whether a schedule is taken at the price that it meets.
fn taken_at(x: Schedule, met: CentsPerMwh) -> bool
    ensures { result ≡ taken_at x met }
{
    if x.side == INJECTS {
        return x.price <= met;
    }
    met <= x.price
}

// Whether a schedule on the point is taken at the prices of the table.
fn is_taken(prices: &[u8], hours: u8, point: Point, x: Schedule) -> bool
    requires { (1 ≤ price_number hours point x) × (price_width * price_number hours point x ≤ length prices.now) }
    ensures { result ≡ taken_at x (numbered_price prices.now (price_number hours point x)) }
{
    let number = price_number(hours, point, x);
    let met = price(prices, number);
    taken_at(x, met)
}

// The result by three tests, in their order: the point's limit is passed, the account's is, the price takes it.
fn ranked_result(point: bool, account: bool, taken: bool) -> Judgement
    ensures { result_number result ≡ result_by point account taken }
{
    if point {
        return Judgement::OverPoint;
    }
    if account {
        return Judgement::OverAccount;
    }
    if taken {
        return Judgement::Registered;
    }
    Judgement::NotTaken
}

// The result of a schedule on its point, after those that used up what the table says.
pub fn result_of(book: &[u8], prices: &[u8], used: &[u32], point: Point, x: Schedule) -> Judgement
    requires priced { Priced book.now prices.now }
    requires on_point { OnPoint (setup_in book.now) point x × (length used.now ≡ used_cells) }
    ensures { ResultIn book.now prices.now used.now x (result_number result) }
{
    let n = counts(book);
    let over_point = over_point(used, x, point);
    let over_account = over_account(book, used, x, point);
    let taken = is_taken(prices, n.hours, point, x);
    ranked_result(over_point, over_account, taken)
}

// What a schedule of the result with that number uses up: its quantity where it is congruous.
fn share(quantity: Kwh, res: u8) -> Kwh
    ensures { (result.0 ≡ (if eqb res 0 || eqb res 3 then quantity.0 else 0)) × (result.0 ≤ quantity.0) }
{
    if (res == Judgement::Registered as u8) | (res == Judgement::NotTaken as u8) {
        return quantity;
    }
    Kwh(0)
}

// Counts a schedule of the result with that number: a congruous one uses up its quantity of its point's and its account's limits.
pub fn use_up(used: &mut [u32], account: u8, x: Schedule, res: u8)
    requires in_cells { InCells most_points x.point x × InCells most_accounts account x }
    requires used_table { (length used.old ≡ used_cells) × Room used.old 0 x.quantity.0 }
    ensures { UsedWith account x res used.old used.new }
{
    let q = share(x.quantity, res);
    let at_point = cell_for(x.point, x);
    let at_account = POINT_CELLS + cell_for(account, x);
    used[at_point] += q.0;
    used[at_account] += q.0;
}

// The table before any schedule is judged.
pub fn nothing_used() -> [u32; USED_SIZE]
    ensures { result ≡ nothing_used }
{
    [0u32; USED_SIZE]
}
