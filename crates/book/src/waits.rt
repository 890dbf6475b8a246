// The pending rows of one account in a table: for each hour the sum of its pending sales, then for each hour that of its pending purchases.
ghost use Rattle.std.specs.Prelude.{◌≡◌, true, ◌+◌, ◌-◌, ◌≤◌, length, get_or};
ghost use Rattle.rules.specs.Basics.{any_passes};
ghost use Rattle.rules.specs.Limits.{most_energy, most_hours};
ghost use Rattle.rules.specs.Registration.{alike};
ghost use Rattle.image.specs.Valid.{is_sound, book_in};
ghost use Rattle.image.specs.Tables.{Tabled, Raised};
ghost use Rattle.book.specs.Members.{IsAccount, IsHour, IsRow, numbered_row};
ghost use Rattle.book.specs.Waits.{wait_cell, Waits, WaitsOf, RoomInWaits, no_waits, WaitAdded, tabled_hour, waits_size};

use crate::positions::net_at;
use crate::state::{row_count, row_offset};
use image::cells::add_range;
use image::rows::{STATUS_OFFSET, row_at};
use rules::limits::PERIODS;
use rules::sides::{BUYS, SELLS};
use rules::statuses::PENDING;
use rules::{AccountHour, Row};
use units::Kwh;
use wire::numbers::get;

// How many cells the table has: one for the sales of each hour, and one for its purchases.
pub const WAITS_SIZE: usize = 2 * PERIODS;

// The cell of an hour: side 1 are sales, side 2 purchases.
fn wait_cell(side: u8, hour: u8) -> usize
    requires { Waits side hour }
    ensures { result ≡ wait_cell side hour }
{
    PERIODS * (side as usize - 1) + (hour as usize - 1)
}

// Adds the row's quantity to the cells of its hours, on its side.
pub fn add_waiting(table: &mut [u32], r: Row)
    requires { RoomInWaits table.old r.quantity.0 × Tabled most_hours r × (1 ≤ r.side) × (r.side ≤ 2) }
    ensures { Raised table.old table.new (wait_cell r.side r.first) (r.last - r.first + 1) r.quantity.0 }
{
    let at = wait_cell(r.side, r.first);
    let n = (r.last - r.first) as usize + 1;
    let quantity = r.quantity;
    add_range(table, at, n, quantity.0);
}

// Adds the row of that number to the table if it is pending and the account proposed it. Answers whether it is such a row and also has this
// counterparty and code. Most rows have another proposer, so that is tested first.
#[tactic(auto, using(crate::proofs::WaitLaws::others_wait, crate::proofs::WaitLaws::others_told))]
fn add_own(
    table: &mut [u32],
    book: &[u8],
    number: u16,
    account: u8,
    counterparty: u8,
    code: u64,
) -> bool
    requires { RoomInWaits table.old most_energy × (is_sound book.now ≡ true) × IsRow (book_in book.now) number }
    ensures waits { WaitAdded table.old table.new (numbered_row (book_in book.now) number) account }
    ensures tells { result ≡ alike account counterparty code (numbered_row (book_in book.now) number) }
{
    let at = row_offset(number);
    if get::<u8>(book, at) != account {
        return false;
    }
    if get::<u8>(book, at + STATUS_OFFSET) != PENDING {
        return false;
    }
    let r = row_at(book, at);
    add_waiting(table, r);
    (r.counterparty == counterparty) & (r.code == code)
}

// The table of no rows: every cell is 0.
pub fn no_waits() -> [u32; WAITS_SIZE]
    ensures { result ≡ no_waits }
{
    [0u32; WAITS_SIZE]
}

// Adds the pending rows that the account proposed to a table of no rows. Answers whether one of them has this counterparty and code.
pub fn fill_waits(table: &mut [u32], book: &[u8], account: u8, counterparty: u8, code: u64) -> bool
    requires { (table.old ≡ no_waits) × (is_sound book.now ≡ true) }
    ensures waits { WaitsOf (book_in book.now).part.rows account table.new }
    ensures tells { result ≡ any_passes (alike account counterparty code) (book_in book.now).part.rows }
{
    let n = row_count(book);
    let mut found = false;
    for number in 1..=n {
        let here = add_own(table, book, number, account, counterparty, code);
        found = found | here;
    }
    found
}

// The account's pending sum of an hour, on a side.
fn wait_at(waits: &[u32], side: u8, hour: u8) -> u32
    requires { (length waits.now ≡ waits_size) × Waits side hour }
    ensures { result ≡ get_or waits.now (wait_cell side hour) 0 }
{
    let k = wait_cell(side, hour);
    waits[k]
}

// The net position of an account in an hour, from the book, with its pending sales and purchases, from the table.
pub fn account_hour(book: &[u8], waits: &[u32], account: u8, hour: u8) -> AccountHour
    requires known_book { (is_sound book.now ≡ true) × (length waits.now ≡ waits_size) }
    requires account { IsAccount (book_in book.now) account × IsHour (book_in book.now) hour }
    ensures { result ≡ tabled_hour (book_in book.now).part.rows waits.now account hour }
{
    let net = net_at(book, account, hour);
    AccountHour {
        net,
        sales: Kwh(wait_at(waits, SELLS, hour)),
        purchases: Kwh(wait_at(waits, BUYS, hour)),
    }
}
