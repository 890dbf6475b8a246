// One row of a strip: the record of a register.
ghost use Rattle.std.specs.Prelude.{◌≡◌, not, ◌+◌, ◌*◌, ◌≤◌, length, eqb};
ghost use Rattle.rules.specs.Requests.{kind_number, register, row_length, field_in, request_of};
ghost use Rattle.rules.specs.Strips.{IsRegister};
ghost use Rattle.strip_rows.specs.Rows.{row_of};

use records::reader::is_of_kind;
pub use records::tables::{HEAD_LENGTH, ROW_LENGTH};
use rules::Request;
use rules::kinds::REGISTER;
use units::{Cents, CentsPerMwh, Kwh};
use wire::numbers::get;

// Where the fields of a row lie.
const ACCOUNT_OFFSET: usize = 3;

const OTHER_OFFSET: usize = 4;

const CODE_OFFSET: usize = 5;

const SIDE_OFFSET: usize = 13;

const FIRST_OFFSET: usize = 14;

const LAST_OFFSET: usize = 15;

const QUANTITY_OFFSET: usize = 16;

// The row of that number, from 0, among those from `at` on.
pub(crate) fn row_at(bytes: &[u8], at: usize, i: usize) -> &[u8]
    requires { at + row_length * i + row_length ≤ length bytes.now }
    ensures { result.now ≡ row_of bytes.now at i }
{
    let k = at + ROW_LENGTH * i;
    &bytes[k..k + ROW_LENGTH]
}

// Whether the row is of another kind than register.
pub fn is_other_kind(row: &[u8]) -> bool
    requires { length row.now ≡ row_length }
    ensures { result ≡ not (eqb (field_in row.now 0) (kind_number register)) }
{
    !is_of_kind(row, REGISTER)
}

// The request that a row says which is the record of a register.
pub fn row_request(row: &[u8]) -> Request
    requires { (length row.now ≡ row_length) × IsRegister row.now }
    ensures { result ≡ request_of row.now }
{
    Request {
        kind: get::<u8>(row, 2),
        account: get::<u8>(row, ACCOUNT_OFFSET),
        other: get::<u8>(row, OTHER_OFFSET),
        code: get::<u64>(row, CODE_OFFSET),
        side: get::<u8>(row, SIDE_OFFSET),
        first: get::<u8>(row, FIRST_OFFSET),
        last: get::<u8>(row, LAST_OFFSET),
        quantity: Kwh(get::<u32>(row, QUANTITY_OFFSET)),
        number: 0,
        operator: 0,
        guarantee: Cents(0),
        point: 0,
        price: CentsPerMwh(0),
    }
}

// The request that the row of that number says.
pub(crate) fn request_at(bytes: &[u8], at: usize, i: usize) -> Request
    requires inside { at + row_length * i + row_length ≤ length bytes.now }
    requires register { IsRegister (row_of bytes.now at i) }
    ensures says { result ≡ request_of (row_of bytes.now at i) }
    ensures kind { result.kind ≡ kind_number register }
{
    row_request(row_at(bytes, at, i))
}
