// What the record of a strip is refused for before a book is looked at: its own 2, 4, 5 and 21, then 2, 3 and 4 of its rows, each over all
// rows before the next.
ghost use Rattle.std.specs.Prelude.{◌≡◌, true, ◌+◌, ◌*◌, ◌≤◌, length};
ghost use Rattle.rules.specs.Verdicts.{first_to_apply, checked};
ghost use Rattle.rules.specs.Requests.{head_length, row_length, is_strip, strip_count, row_checks, strip_checks};
ghost use Rattle.strip_rows.specs.Rows.{rows_from};

use crate::faults::first_fault;
use crate::rows::{HEAD_LENGTH, ROW_LENGTH, is_other_kind, row_at};
use records::checks::fails_if;
use records::reader::{is_of_kind, map_fault, no_map};
use rules::Refusal;
use rules::kinds::{REGISTER, STRIP};
use rules::limits::MOST_STRIP;
use wire::numbers::get;

// Whether the bytes are those of a strip: the record has its kind.
pub fn is_strip(bytes: &[u8]) -> bool
    ensures { result ≡ is_strip bytes.now }
{
    is_of_kind(bytes, STRIP)
}

// 2, 3 and 4 of the rows.
fn rows_fault(bytes: &[u8], n: usize) -> Result<(), Refusal>
    requires { head_length + row_length * n ≤ length bytes.now }
    ensures { result ≡ checked (first_to_apply (row_checks (rows_from bytes.now head_length n))) }
{
    first_fault(n, |i| {
        let row = row_at(bytes, HEAD_LENGTH, i);
        fails_if(no_map(row), Refusal::Unreadable)
    })?;
    first_fault(n, |i| {
        let row = row_at(bytes, HEAD_LENGTH, i);
        fails_if(is_other_kind(row), Refusal::UnknownKind)
    })?;
    first_fault(n, |i| map_fault(row_at(bytes, HEAD_LENGTH, i), REGISTER))
}

// How many rows the strip says it has.
pub fn row_count(bytes: &[u8]) -> usize
    requires { head_length ≤ length bytes.now }
    ensures { result ≡ strip_count bytes.now }
{
    get::<u8>(bytes, HEAD_LENGTH - 1) as usize
}

// What a strip is refused for before the book is looked at.
pub fn strip_fault(bytes: &[u8]) -> Result<(), Refusal>
    requires { is_strip bytes.now ≡ true }
    ensures { result ≡ checked (first_to_apply (strip_checks bytes.now)) }
{
    if no_map(bytes) {
        return Err(Refusal::Unreadable);
    }
    map_fault(bytes, STRIP)?;
    if bytes.len() < HEAD_LENGTH {
        return Err(Refusal::WrongLength);
    }
    let n = row_count(bytes);
    if bytes.len() != HEAD_LENGTH + ROW_LENGTH * n {
        return Err(Refusal::WrongLength);
    }
    if (n < 1) | ((MOST_STRIP as usize) < n) {
        return Err(Refusal::StripCount);
    }
    rows_fault(bytes, n)
}
