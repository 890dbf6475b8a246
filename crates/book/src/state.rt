// The state of a book, read from its bytes.
ghost use Rattle.std.specs.Prelude.{◌≡◌, true, ◌+◌, ◌-◌, ◌≤◌, length};
ghost use Rattle.rules.specs.Basics.{is_some};
ghost use Rattle.rules.specs.Limits.{most_rows, most_schedules, most_hours, most_operators};
ghost use Rattle.rules.specs.Books.{operator_of, phase_number};
ghost use Rattle.rules.specs.Calls.{restored};
ghost use Rattle.image.specs.Layout.{present_offset, row_offset, net_offset};
ghost use Rattle.image.specs.Valid.{is_sound, book_in};
ghost use Rattle.image.specs.Tables.{InTable};
ghost use Rattle.book.specs.Members.{IsAccount, IsOperator};

use image::layout::{
    ACCOUNT_NETS, FLAG_OFFSET, NET_WIDTH, NETS_OFFSET, PHASE_OFFSET, PRESENT_OFFSET,
    ROW_COUNT_OFFSET, ROW_WIDTH, ROWS_OFFSET, SAVED_OFFSET, SCHEDULE_COUNT_OFFSET,
};
use rules::phases::Phase;
use setup::entries::account_operator;
use wire::numbers::get;

// The phase of the day.
pub fn phase(book: &[u8]) -> Phase
    requires { is_sound book.now ≡ true }
    ensures { phase_number result ≡ (book_in book.now).phase }
{
    Phase::of(get::<u8>(book, PHASE_OFFSET))
}

// Whether a batch is open.
pub fn batch_open(book: &[u8]) -> bool
    requires { is_sound book.now ≡ true }
    ensures { result ≡ is_some (book_in book.now).saved }
{
    get::<u8>(book, FLAG_OFFSET) == 1
}

// How many rows there are, withdrawn ones too.
pub fn row_count(book: &[u8]) -> u16
    requires { is_sound book.now ≡ true }
    ensures meaning { result ≡ length (book_in book.now).part.rows }
    ensures bounded { result ≤ most_rows }
{
    get::<u16>(book, PRESENT_OFFSET + ROW_COUNT_OFFSET)
}

// How many schedules there are.
pub fn schedule_count(book: &[u8]) -> u16
    requires { is_sound book.now ≡ true }
    ensures meaning { result ≡ length (book_in book.now).schedules }
    ensures bounded { result ≤ most_schedules }
{
    get::<u16>(book, SCHEDULE_COUNT_OFFSET)
}

// How many rows the open batch saved: at most as many as there are now.
pub fn saved_row_count(book: &[u8]) -> u16
    requires known_book { is_sound book.now ≡ true }
    requires batch_open { is_some (book_in book.now).saved ≡ true }
    ensures meaning { let b = book_in book.now in result ≡ length (restored b.saved b.part).rows }
    ensures bounded { result ≤ length (book_in book.now).part.rows }
{
    get::<u16>(book, SAVED_OFFSET + ROW_COUNT_OFFSET)
}

// Where the row of a number begins.
pub fn row_offset(number: u16) -> usize
    requires { (1 ≤ number) × (number ≤ most_rows) }
    ensures { result ≡ present_offset + row_offset (number - 1) }
{
    PRESENT_OFFSET + ROWS_OFFSET + ROW_WIDTH * ((number - 1) as usize)
}

// Where the net position of an account in an hour begins.
pub fn net_offset(account: u8, hour: u8) -> usize
    requires { InTable most_hours account hour }
    ensures { result ≡ present_offset + net_offset most_hours account hour }
{
    let cell = ACCOUNT_NETS * (account as usize - 1) + NET_WIDTH * (hour as usize - 1);
    PRESENT_OFFSET + (NETS_OFFSET + cell)
}

// The operator of an account.
pub fn operator_of(book: &[u8], number: u8) -> u8
    requires { (is_sound book.now ≡ true) × IsAccount (book_in book.now) number }
    ensures meaning { result ≡ operator_of (book_in book.now).setup number }
    ensures inside { IsOperator (book_in book.now) result }
    ensures bounded { result ≤ most_operators }
{
    account_operator(book, number)
}
