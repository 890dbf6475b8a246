// Rows in bytes: where each field stands in a row, and a row read and written; two rows compared; the place of a row that is asked for.
ghost use Rattle.std.specs.Prelude.{◌≡◌, ◌+◌, ◌≤◌, length, take, drop};
ghost use Rattle.rules.specs.Registration.{same_terms};
ghost use Rattle.rules.specs.Limits.{most_accounts, most_hours};
ghost use Rattle.image.specs.Layout.{row_width, ask_offset};
ghost use Rattle.image.specs.Image.{row_in, row_bytes};

use crate::layout::{ASKS_OFFSET, CODE_WIDTH, QUANTITY_WIDTH, ROW_WIDTH};
use rules::Row;
use units::Kwh;
use wire::numbers::{get, put};

// Where a field stands in a row, which begins with its proposer.
pub const COUNTERPARTY_OFFSET: usize = 1;

pub const CODE_OFFSET: usize = COUNTERPARTY_OFFSET + 1;

pub const SIDE_OFFSET: usize = CODE_OFFSET + CODE_WIDTH;

pub const FIRST_OFFSET: usize = SIDE_OFFSET + 1;

pub const LAST_OFFSET: usize = FIRST_OFFSET + 1;

pub const QUANTITY_OFFSET: usize = LAST_OFFSET + 1;

pub const STATUS_OFFSET: usize = QUANTITY_OFFSET + QUANTITY_WIDTH;

// The row in the bytes from `at` on.
pub fn row_at(s: &[u8], at: usize) -> Row
    requires { at + row_width ≤ length s.now }
    ensures { result ≡ row_in (take row_width (drop at s.now)) }
{
    Row {
        proposer: get::<u8>(s, at),
        counterparty: get::<u8>(s, at + COUNTERPARTY_OFFSET),
        code: get::<u64>(s, at + CODE_OFFSET),
        side: get::<u8>(s, at + SIDE_OFFSET),
        first: get::<u8>(s, at + FIRST_OFFSET),
        last: get::<u8>(s, at + LAST_OFFSET),
        quantity: Kwh(get::<u32>(s, at + QUANTITY_OFFSET)),
        status: get::<u8>(s, at + STATUS_OFFSET),
    }
}

// The bytes of a row.
pub fn row_bytes(r: Row) -> [u8; ROW_WIDTH]
    ensures { result ≡ row_bytes r }
{
    let mut b = [0; ROW_WIDTH];
    put(&mut b, 0, r.proposer);
    put(&mut b, COUNTERPARTY_OFFSET, r.counterparty);
    put(&mut b, CODE_OFFSET, r.code);
    put(&mut b, SIDE_OFFSET, r.side);
    put(&mut b, FIRST_OFFSET, r.first);
    put(&mut b, LAST_OFFSET, r.last);
    put(&mut b, QUANTITY_OFFSET, r.quantity.0);
    put(&mut b, STATUS_OFFSET, r.status);
    b
}

// The rows are the same but for their status.
pub fn same_terms(x: Row, y: Row) -> bool
    ensures { result ≡ same_terms x y }
{
    Row {
        status: y.status,
        ..x
    } == y
}

// Where the place of an account's ask begins in a book.
pub fn ask_offset(number: u8) -> usize
    requires { (1 ≤ number) × (number ≤ most_accounts) }
    ensures { result ≡ ask_offset most_hours number }
{
    ASKS_OFFSET + ROW_WIDTH * (number as usize - 1)
}
