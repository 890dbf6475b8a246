// Sides, as specs/Books.antt numbers them. Numbers, since rows, schedules and requests are read from any bytes, and tested after.

// Of a row: what its proposer does.
pub const SELLS: u8 = 1;

pub const BUYS: u8 = 2;

// Of a schedule.
pub const INJECTS: u8 = 1;

pub const WITHDRAWS: u8 = 2;
