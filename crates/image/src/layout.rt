// The layout of a book's bytes, as docs/LAYOUT.md has it: offsets, and the widths that a set-up does not have.
use rules::limits::{MOST_ACCOUNTS, MOST_OPERATORS, MOST_SCHEDULES, PERIODS};
use setup::counts::{GUARANTEE_WIDTH, PRICE_WIDTH};

// Bytes of a book.
pub const BOOK_SIZE: usize = 49_152;

// Bytes of a code and of a quantity; a row is account, counterparty, code, side, first and last hour, quantity and status.
pub const CODE_WIDTH: usize = 8;

pub const QUANTITY_WIDTH: usize = 4;

pub const ROW_WIDTH: usize = 2 + CODE_WIDTH + 3 + QUANTITY_WIDTH + 1;

// A schedule is point, side, hour, quantity and price.
pub const SCHEDULE_WIDTH: usize = 3 + QUANTITY_WIDTH + PRICE_WIDTH;

// The set-up's room, then single bytes and counts.
pub const SETUP_ROOM: usize = 8_192;

pub const PHASE_OFFSET: usize = SETUP_ROOM;

pub const FLAG_OFFSET: usize = PHASE_OFFSET + 1;

pub const SCHEDULE_COUNT_OFFSET: usize = FLAG_OFFSET + 1;

pub const SCHEDULES_OFFSET: usize = SCHEDULE_COUNT_OFFSET + 2;

// The two parts, of one shape, the asks, and what is spare.
pub const PRESENT_OFFSET: usize = SCHEDULES_OFFSET + SCHEDULE_WIDTH * MOST_SCHEDULES;

pub const SAVED_OFFSET: usize = PRESENT_OFFSET + PART_SIZE;

pub const ASKS_OFFSET: usize = SAVED_OFFSET + PART_SIZE;

pub const SPARE_OFFSET: usize = ASKS_OFFSET + ASKS_SIZE;

// The asks: a place as wide as a row for each account that a day may have.
pub const ASKS_SIZE: usize = ROW_WIDTH * LANE_SLOTS;

pub const PART_SIZE: usize = NETS_OFFSET + LANE_SLOTS * ACCOUNT_NETS;

// In a part: guarantees, row count, rows, net positions.
pub const ROW_COUNT_OFFSET: usize = GUARANTEE_WIDTH * (MOST_OPERATORS as usize);

pub const ROWS_OFFSET: usize = ROW_COUNT_OFFSET + 2;

pub const NETS_OFFSET: usize = ROWS_OFFSET + ROW_WIDTH * MOST_ROWS;

// Rows that may have numbers in a day.
pub const MOST_ROWS: usize = rules::limits::MOST_ROWS as usize;

// Bytes of a net position, and of an account's: one for each period.
pub const NET_WIDTH: usize = 4;

pub const ACCOUNT_NETS: usize = NET_WIDTH * PERIODS;

// The table of sums: the accounts of a lane, each with a cell for each period, and the cells of its four lanes.
pub const LANE_SLOTS: usize = MOST_ACCOUNTS as usize;

pub const TABLE_SIZE: usize = 4 * LANE_SLOTS * PERIODS;
