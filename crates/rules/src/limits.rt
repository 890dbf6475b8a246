// The paper's figures that several crates go by, named as in specs/Limits.antt.

// kWh: a quantity, a margin, a point's greatest amount.
pub const MOST_ENERGY: u32 = 10_000_000;

// Cents per MWh.
pub const MOST_PRICE: u32 = 400_000;

// Cents.
pub const MOST_GUARANTEE: u64 = 1_000_000_000_000;

// Maintenance is a part of it.
pub const THOUSAND: u16 = 1000;

// Rows that may have numbers in a day, withdrawn ones too.
pub const MOST_ROWS: u16 = 256;

// Rows that a strip may have.
pub const MOST_STRIP: u8 = 24;

// Schedules that a book has room for.
pub const MOST_SCHEDULES: usize = 256;

// The counts of a set-up.
pub const FEWEST_HOURS: u8 = 23;

pub const MOST_HOURS: u8 = 25;

// The most periods of a day, as a size.
pub const PERIODS: usize = MOST_HOURS as usize;

pub const MOST_OPERATORS: u8 = 16;

pub const MOST_ACCOUNTS: u8 = 32;

pub const MOST_POINTS: u8 = 64;

pub const MOST_ZONES: u8 = 8;
