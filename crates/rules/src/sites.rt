// Kinds of accounts and points, as specs/Books.antt numbers them. Numbers, since a set-up is read from any bytes, and tested after.
pub const INJECTION: u8 = 1;

pub const WITHDRAWAL: u8 = 2;

// Points only.
pub const MIXED: u8 = 3;
