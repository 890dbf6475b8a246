// The record writer: the bytes that say a request.
ghost use Rattle.std.specs.Prelude.{◌≡◌, true, ◌+◌, ◌≤◌, ◌<◌, length};
ghost use Rattle.wire.specs.Numbers.{le};
ghost use Rattle.wire.specs.Regions.{splice};
ghost use Rattle.rules.specs.Requests.{field_count, is_single, wanted_length, offset, fields_of, field_of, field_bytes, write as bytes_of, write_outcome, written};

use crate::tables::{FIELDS, is_single, room_of, wanted_length, wanted_map};
use rules::{Refusal, Request};
use wire::numbers::put;

// Puts `v` into the `width` bytes from `at` on.
fn put_number(s: &mut [u8], at: usize, width: usize, v: u64)
    requires { at + width ≤ length s.old }
    ensures { s.new ≡ splice s.old at (le width v) }
{
    let mut rest = v;
    for byte in &mut s[at..at + width] {
        *byte = (rest % 256) as u8;
        rest /= 256;
    }
}

// The fields of a request by bit.
fn fields_of(q: Request) -> [u64; FIELDS]
    ensures { result ≡ fields_of q }
{
    [
        q.kind as u64,
        q.account as u64,
        q.other as u64,
        q.code,
        q.side as u64,
        q.first as u64,
        q.last as u64,
        q.quantity.0 as u64,
        q.number as u64,
        q.operator as u64,
        q.guarantee.0,
        q.point as u64,
        q.price.0 as u64,
    ]
}

// The field of a bit.
fn field_of(q: Request, k: usize) -> u64
    requires { k < field_count }
    ensures { result ≡ field_of q k }
{
    let fields = fields_of(q);
    fields[k]
}

// Puts the fields of a request that the map has, one after the other, behind the place of the map.
fn put_fields(q: Request, map: u16, buffer: &mut [u8])
    requires { offset map field_count ≤ length buffer.old }
    ensures { buffer.new ≡ splice buffer.old 2 (field_bytes map q 0 field_count) }
{
    let mut at = 2;
    for k in 0..FIELDS {
        let room = room_of(map, k);
        put_number(buffer, at, room, field_of(q, k));
        at += room;
    }
}

// Puts the record of a request into the first bytes of the buffer.
fn put_record(q: Request, buffer: &mut [u8])
    requires { (is_single q.kind ≡ true) × (wanted_length q.kind ≤ length buffer.old) }
    ensures { buffer.new ≡ splice buffer.old 0 (bytes_of q) }
{
    let kind = q.kind;
    let wanted = wanted_map(kind);
    put(buffer, 0, wanted);
    put_fields(q, wanted, buffer);
}

// Writes the record of a request into the first bytes of the buffer and changes no others, or refuses by 3 or 10.
pub fn write(request: Request, buffer: &mut [u8]) -> Result<u16, Refusal>
    ensures answer { result ≡ write_outcome request buffer.old }
    ensures filled { buffer.new ≡ written request buffer.old }
{
    let kind = request.kind;
    if !is_single(kind) {
        return Err(Refusal::UnknownKind);
    }
    if buffer.len() < wanted_length(kind) {
        return Err(Refusal::BufferShort);
    }
    put_record(request, buffer);
    Ok(0)
}
