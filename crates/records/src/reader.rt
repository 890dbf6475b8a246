// The record reader: what bytes say, or why they say nothing.
ghost use Rattle.std.specs.Prelude.{◌≡◌, true, false, ◌+◌, ◌≤◌, map, length, eqb};
ghost use Rattle.wire.specs.Numbers.{number_at};
ghost use Rattle.rules.specs.Verdicts.{applies, checked};
ghost use Rattle.rules.specs.Requests.{field_count, map_of, offset, bits, field_in, request_of, is_kind, is_single, unreadable, map_check, reading};

use crate::tables::{
    FIELDS, PAST_FIELDS, fields_more, has_field, is_single, room_of, wanted_length, wanted_map,
};
use rules::{Refusal, Request};
use units::{Cents, CentsPerMwh, Kwh};
use wire::numbers::get;

// The number in the `width` bytes from `at` on.
fn number_at(s: &[u8], at: usize, width: usize) -> u64
    requires { (at + width ≤ length s.now) × (width ≤ 8) }
    ensures { result ≡ number_at s.now at width }
{
    let mut v: u64 = 0;
    for p in (at..at + width).rev() {
        v = s[p] as u64 + 256 * v;
    }
    v
}

// The fields of a record by bit, one after the other. A field that the record has not is 0.
fn fields(bytes: &[u8]) -> [u64; FIELDS]
    requires { offset (map_of bytes.now) field_count ≤ length bytes.now }
    ensures { result ≡ map (field_in bytes.now) bits }
{
    let given = get::<u16>(bytes, 0);
    let mut found = [0; FIELDS];
    let mut at = 2;
    for k in 0..FIELDS {
        let room = room_of(given, k);
        found[k] = number_at(bytes, at, room);
        at += room;
    }
    found
}

// The request that a record of the right length says.
fn request(bytes: &[u8]) -> Request
    requires { offset (map_of bytes.now) field_count ≤ length bytes.now }
    ensures { result ≡ request_of bytes.now }
{
    let f = fields(bytes);
    Request {
        kind: f[0] as u8,
        account: f[1] as u8,
        other: f[2] as u8,
        code: f[3],
        side: f[4] as u8,
        first: f[5] as u8,
        last: f[6] as u8,
        quantity: Kwh(f[7] as u32),
        number: f[8] as u16,
        operator: f[9] as u8,
        guarantee: Cents(f[10]),
        point: f[11] as u8,
        price: CentsPerMwh(f[12] as u32),
    }
}

// Whether a record is under 3 bytes, or its map has bit 0 clear or a bit of 13 to 15 set.
pub fn no_map(bytes: &[u8]) -> bool
    ensures { result ≡ unreadable bytes.now }
{
    if bytes.len() < 3 {
        return true;
    }
    let given = get::<u16>(bytes, 0);
    !has_field(given, 0) | (PAST_FIELDS <= given)
}

// Whether the bytes are a record of that kind.
pub fn is_of_kind(bytes: &[u8], kind: u8) -> bool
    requires { 1 ≤ kind }
    ensures { result ≡ eqb (field_in bytes.now 0) kind }
{
    if bytes.len() < 3 {
        return false;
    }
    if has_field(get::<u16>(bytes, 0), 0) {
        return get::<u8>(bytes, 2) == kind;
    }
    false
}

// The check of the map against that of a kind: how many wanted fields are missing, and how many stand unwanted.
pub fn map_fault(bytes: &[u8], kind: u8) -> Result<(), Refusal>
    requires { (unreadable bytes.now ≡ false) × (is_kind kind ≡ true) }
    ensures { result ≡ checked (applies (map_check kind bytes.now)) }
{
    let given = get::<u16>(bytes, 0);
    let wanted = wanted_map(kind);
    if given != wanted {
        let missing = fields_more(wanted, given);
        let unwanted = fields_more(given, wanted);
        return Err(Refusal::WrongMap { missing, unwanted });
    }
    Ok(())
}

// What a record of this kind reads as.
fn read_as(bytes: &[u8], kind: u8) -> Result<Request, Refusal>
    requires { (unreadable bytes.now ≡ false) × (kind ≡ field_in bytes.now 0) × (is_single kind ≡ true) }
    ensures { result ≡ reading bytes.now }
{
    map_fault(bytes, kind)?;
    if bytes.len() != wanted_length(kind) {
        return Err(Refusal::WrongLength);
    }
    Ok(request(bytes))
}

// What a record reads as: the request that it says, or the refusal 2, 3, 4 or 5.
pub fn read(bytes: &[u8]) -> Result<Request, Refusal>
    ensures { result ≡ reading bytes.now }
{
    if no_map(bytes) {
        return Err(Refusal::Unreadable);
    }
    let kind = get::<u8>(bytes, 2);
    if !is_single(kind) {
        return Err(Refusal::UnknownKind);
    }
    read_as(bytes, kind)
}
