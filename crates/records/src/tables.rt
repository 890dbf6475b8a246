// The tables of the kinds and of the thirteen fields, and what they say of a map.
ghost use Rattle.std.specs.Prelude.{◌≡◌, true, ◌<◌, ◌^◌};
ghost use Rattle.rules.specs.Basics.{bit};
ghost use Rattle.rules.specs.Requests.{is_kind, is_single, wanted_map, wanted_length, field_count, width_of, room, more};

use rules::kinds::{COMMIT, REGISTER, STRIP};

// The map and the length of a record, by kind. No kind is 0. The length of a strip is that before its rows.
const MAPS: [u16; 14] = [
    0, 0x00FF, 0x00FF, 0x0103, 0x0601, 0x0001, 0x0001, 0x0001, 0x0001, 0x18B1, 0x0001, 0x0001,
    0x00FF, 0x00FF,
];

const LENGTHS: [u8; 14] = [0, 20, 20, 6, 12, 3, 3, 3, 3, 14, 3, 4, 20, 20];

// The bytes before the rows of a strip, and those of a row: the record of a register.
pub const HEAD_LENGTH: usize = LENGTHS[STRIP as usize] as usize;

pub const ROW_LENGTH: usize = LENGTHS[REGISTER as usize] as usize;

// Bits 0 to 12 have fields.
pub const FIELDS: usize = 13;

// The least map with a bit past them.
pub const PAST_FIELDS: u16 = 0x2000;

// The bytes of a field, by bit.
const WIDTHS: [u8; FIELDS] = [1, 1, 1, 8, 1, 1, 1, 4, 2, 1, 8, 1, 4];

// Whether a number is the kind of a single record: of any kind but the strip.
pub fn is_single(number: u8) -> bool
    ensures { result ≡ is_single number }
{
    (REGISTER <= number) & (number <= COMMIT) & (number != STRIP)
}

// The map of a kind's records.
pub fn wanted_map(kind: u8) -> u16
    requires { is_kind kind ≡ true }
    ensures { result ≡ wanted_map kind }
{
    let k = kind as usize;
    MAPS[k]
}

// The length of a kind's records.
pub fn wanted_length(kind: u8) -> usize
    requires { is_kind kind ≡ true }
    ensures { result ≡ wanted_length kind }
{
    let k = kind as usize;
    LENGTHS[k] as usize
}

// The bytes of the field of a bit.
pub fn width(k: usize) -> usize
    requires { k < field_count }
    ensures { result ≡ width_of k }
{
    WIDTHS[k] as usize
}

// Whether the map has the field: its bit is set.
pub fn has_field(map: u16, k: usize) -> bool
    requires { k < 16 }
    ensures { result ≡ bit map k }
{
    (map >> k) % 2 == 1
}

// The bytes that a field takes of a record with this map: none where its bit is clear.
pub fn room_of(map: u16, k: usize) -> usize
    requires { k < field_count }
    ensures { result ≡ room map k }
{
    if has_field(map, k) { width(k) } else { 0 }
}

// How many fields one map has and the other has not.
pub fn fields_more(one: u16, other: u16) -> u8
    requires { one < 2 ^ field_count }
    ensures { result ≡ more one other }
{
    u16::count_ones(one & !other) as u8
}
