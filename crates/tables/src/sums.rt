// The sums of all account hours in one pass over the rows, and what is read off them.
ghost use Rattle.std.specs.Prelude.{◌≡◌, ◌+◌, ◌-◌, ◌*◌, ◌≤◌, ◌<◌, length, get_or};
ghost use Rattle.rules.specs.Basics.{every, up_to};
ghost use Rattle.rules.specs.Limits.{most_accounts, most_hours};
ghost use Rattle.rules.specs.Registration.{account_hour};
ghost use Rattle.rules.specs.Books.{pending_status, confirmed_status};
ghost use Rattle.image.specs.Layout.{most_periods};
ghost use Rattle.image.specs.Cells.{rows_from};
ghost use Rattle.image.specs.Tables.{slots, table_size, place_of, cell_of, Inside, InTable, Tabled, Room};
ghost use Rattle.tables.specs.Sums.{SumTable, NoSums, SumsOf, ForRowsSummedIn, AccountInTable, RoomForRow, RowsTabled, HoursRaised, RowAdded, NetsInside, net_stored, nets_stored};

use image::cells::add_range;
use image::layout::{LANE_SLOTS, NET_WIDTH, ROW_WIDTH, TABLE_SIZE};
use image::rows::row_at;
use rules::limits::MOST_ACCOUNTS;
use rules::sides::{BUYS, SELLS};
use rules::statuses::{CONFIRMED, PENDING};
use rules::{AccountHour, Net, Row};
use units::Kwh;
use wire::numbers::get;
use wire::signed::MODULUS_U32;

// The lanes of the table.
const BOUGHT: usize = 0;

const SOLD: usize = 1;

const SALES: usize = 2;

const PURCHASES: usize = 3;

// The cell of an account hour in a lane.
fn cell(top: usize, lane: usize, account: u8, hour: u8) -> usize
    requires { (lane ≤ 3) × InTable top account hour × (top ≤ most_periods) }
    ensures { Inside top slots (cell_of top lane account hour) hour result }
{
    top * (LANE_SLOTS * lane + (account as usize - 1)) + (hour as usize - 1)
}

// The place of an account hour among those of all accounts.
fn place(top: usize, account: u8, hour: u8) -> usize
    requires { InTable top account hour × (top ≤ most_periods) }
    ensures { Inside top most_accounts (place_of top account hour) hour result }
{
    top * (account as usize - 1) + (hour as usize - 1)
}

// Adds the row's quantity to the account's cells of its hours in a lane.
fn add_hours(table: &mut [u32], top: usize, lane: usize, account: u8, r: Row)
    requires sum_table { SumTable top table.old × (lane ≤ 3) × AccountInTable account }
    requires tabled { Tabled top r × Room table.old (top * (most_accounts * lane)) r.quantity.0 }
    ensures { HoursRaised top lane account r table.old table.new }
{
    let at = cell(top, lane, account, r.first);
    let n = (r.last - r.first) as usize + 1;
    let quantity = r.quantity;
    add_range(table, at, n, quantity.0);
}

// A confirmed row: its buyer bought, and its seller sold.
fn add_confirmed(table: &mut [u32], top: usize, r: Row)
    requires { SumTable top table.old × RoomForRow top table.old r × (r.status ≡ confirmed_status) }
    ensures { RowAdded top table.old table.new r }
{
    let buyer = r.buyer();
    let seller = r.seller();
    add_hours(table, top, BOUGHT, buyer, r);
    add_hours(table, top, SOLD, seller, r);
}

// A pending row: it counts for its proposer, as a sale or as a purchase.
fn add_pending(table: &mut [u32], top: usize, r: Row)
    requires { SumTable top table.old × RoomForRow top table.old r × (r.status ≡ pending_status) }
    ensures { RowAdded top table.old table.new r }
{
    if r.side == SELLS {
        add_hours(table, top, SALES, r.proposer, r);
    } else if r.side == BUYS {
        add_hours(table, top, PURCHASES, r.proposer, r);
    }
}

// One row more. A withdrawn one counts for nobody.
fn add_row(table: &mut [u32], top: usize, r: Row)
    requires { SumTable top table.old × RoomForRow top table.old r }
    ensures { RowAdded top table.old table.new r }
{
    if r.status == CONFIRMED {
        add_confirmed(table, top, r);
    } else if r.status == PENDING {
        add_pending(table, top, r);
    }
}

// A table of no rows.
pub fn zeros() -> [u32; TABLE_SIZE]
    ensures { NoSums most_hours result }
{
    [0u32; TABLE_SIZE]
}

// Makes a table one of no rows again.
pub fn clear(table: &mut [u32])
    requires { table_size most_hours ≤ length table.old }
    ensures { NoSums most_hours table.new }
{
    table.fill(0);
}

// Adds the `n` rows from `at` on to a table of no rows.
pub fn fill(table: &mut [u32], top: usize, s: &[u8], at: usize, n: usize)
    requires { NoSums top table.old × (top ≤ most_periods) × RowsTabled top s.now at n }
    ensures { SumsOf top (rows_from s.now at n) table.new }
{
    for i in 0..n {
        let r = row_at(s, at + ROW_WIDTH * i);
        add_row(table, top, r);
    }
}

// The sum that a lane holds for an account hour.
fn sum_at(table: &[u32], top: usize, lane: usize, account: u8, hour: u8) -> u32
    requires { SumTable top table.now × (lane ≤ 3) × InTable top account hour }
    ensures { result ≡ get_or table.now (cell_of top lane account hour) 0 }
{
    let k = cell(top, lane, account, hour);
    table[k]
}

// What an account holds in an hour.
pub fn account_hour(table: &[u32], top: usize, account: u8, hour: u8) -> AccountHour
    requires { SumTable top table.now × InTable top account hour }
    ensures { ForRowsSummedIn top table.now (λ rows. result ≡ account_hour rows account hour) }
{
    let net = Net {
        bought: Kwh(sum_at(table, top, BOUGHT, account, hour)),
        sold: Kwh(sum_at(table, top, SOLD, account, hour)),
    };
    AccountHour {
        net,
        sales: Kwh(sum_at(table, top, SALES, account, hour)),
        purchases: Kwh(sum_at(table, top, PURCHASES, account, hour)),
    }
}

// Whether the 4 bytes of a net position are what the account bought in the hour less what it sold.
fn net_matches(s: &[u8], nets: usize, table: &[u32], top: usize, account: u8, hour: u8) -> bool
    requires { NetsInside top s.now nets × SumTable top table.now × InTable top account hour }
    ensures { result ≡ net_stored top s.now nets table.now account hour }
{
    let at = nets + NET_WIDTH * place(top, account, hour);
    let stored = get::<u32>(s, at) as u64;
    let bought = sum_at(table, top, BOUGHT, account, hour) as u64;
    let sold = sum_at(table, top, SOLD, account, hour) as u64;
    (stored + sold) % MODULUS_U32 == bought % MODULUS_U32
}

// The same for all hours of an account.
fn account_nets_match(s: &[u8], nets: usize, table: &[u32], top: usize, account: u8) -> bool
    requires { NetsInside top s.now nets × SumTable top table.now × AccountInTable account }
    ensures { result ≡ every (net_stored top s.now nets table.now account) (up_to top) }
{
    for hour in 1..=top as u8 {
        if !net_matches(s, nets, table, top, account, hour) {
            return false;
        }
    }
    true
}

// Whether all net positions from `nets` on are those of the table.
pub fn nets_match(s: &[u8], nets: usize, table: &[u32], top: usize) -> bool
    requires { NetsInside top s.now nets × SumTable top table.now }
    ensures { result ≡ nets_stored top s.now nets table.now }
{
    for account in 1..=MOST_ACCOUNTS {
        if !account_nets_match(s, nets, table, top, account) {
            return false;
        }
    }
    true
}
