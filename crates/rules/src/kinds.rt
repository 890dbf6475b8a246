// The kinds of request by their numbers, as `kind_number` of specs/Requests.antt has them. Numbers, since a request may name one that is no kind
// (`records::writer::write` refuses it), and since the kind decides by a `match` on its number.
pub const REGISTER: u8 = 1;

pub const CONFIRM: u8 = 2;

pub const WITHDRAW: u8 = 3;

pub const GUARANTEE: u8 = 4;

pub const OPEN_BATCH: u8 = 5;

pub const UNDO: u8 = 6;

pub const KEEP: u8 = 7;

pub const CLOSE_GATE: u8 = 8;

pub const SCHEDULE: u8 = 9;

// It alone is lent a price table and two buffers.
pub const SETTLE: u8 = 10;

// Its record holds others: up to 24 registers.
pub const STRIP: u8 = 11;

// What a register would be answered, and the register of what was asked.
pub const ASK: u8 = 12;

pub const COMMIT: u8 = 13;
