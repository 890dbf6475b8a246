// The statuses of a row, as specs/Books.antt numbers them. Numbers, since a row is read from any bytes: whether they are a book is asked after.
pub const PENDING: u8 = 1;

pub const CONFIRMED: u8 = 2;

pub const WITHDRAWN: u8 = 3;
