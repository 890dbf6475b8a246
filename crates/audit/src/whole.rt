// Whether bytes are those of a sound book: section by section, the set-up first.
ghost use Rattle.std.specs.Prelude.{◌≡◌, true, not, ◌+◌, ◌*◌, ◌≤◌, length};
ghost use Rattle.rules.specs.Basics.{is_some};
ghost use Rattle.rules.specs.Limits.{most_rows, book_size, most_hours};
ghost use Rattle.rules.specs.Opening.{setup_refusal, operator_entry};
ghost use Rattle.image.specs.Layout.{present_offset};
ghost use Rattle.image.specs.Valid.{is_sound};
ghost use Rattle.tables.specs.Sums.{NoSums, SumsOf};
ghost use Rattle.audit.specs.Exact.{no_guarantees};
ghost use Rattle.audit.specs.Validity.{setup_valid, SetupKnown, SavedCounted, row_count, rows_of, saved_part_valid, saved_followed, schedules_valid, phase_valid};

use crate::asks::asks_valid;
use crate::checks::{all_pass, none_pending, schedules_ok};
use crate::part::part_valid;
use crate::saved::rows_follow;
use image::layout::{
    BOOK_SIZE, FLAG_OFFSET, PART_SIZE, PHASE_OFFSET, PRESENT_OFFSET, ROW_COUNT_OFFSET, ROWS_OFFSET,
    SAVED_OFFSET, SCHEDULE_COUNT_OFFSET, SCHEDULE_WIDTH, SCHEDULES_OFFSET, SETUP_ROOM,
    SPARE_OFFSET,
};
use rules::Refusal;
use rules::limits::{MOST_SCHEDULES, PERIODS};
use rules::phases::{REGISTRATION, SETTLED};
use setup::counts::{GUARANTEE_WIDTH, OPERATOR_ENTRY, counts, length_of, operators_offset};
use setup::fault::fault;
use tables::sums::clear;
use wire::numbers::get;
use wire::regions::all_zero;

// Whether opening would accept these set-up bytes.
fn is_accepted(setup: &[u8]) -> bool
    ensures { result ≡ not (is_some (setup_refusal setup.now)) }
{
    match fault(setup) {
        Ok(()) => true,
        Err(_) => false,
    }
}

// The `n` operators from `at` on have no guarantees.
fn no_guarantees(s: &[u8], at: usize, n: usize) -> bool
    requires { at + operator_entry * n ≤ length s.now }
    ensures { result ≡ no_guarantees s.now at n }
{
    all_pass(n, |i| all_zero(s, at + OPERATOR_ENTRY * i, GUARANTEE_WIDTH))
}

// The set-up in the book is one that opening would accept, with no guarantee in it and zeros behind it.
#[tactic(auto, using(crate::proofs::ValidityLaws::too_long))]
fn setup_valid(book: &[u8]) -> bool
    requires { length book.now ≡ book_size }
    ensures { result ≡ setup_valid book.now }
{
    let n = counts(book);
    let size = length_of(n);
    if SETUP_ROOM < size {
        return false;
    }
    if !is_accepted(&book[..size]) {
        return false;
    }
    let from = operators_offset(n);
    no_guarantees(book, from, n.operators as usize) & all_zero(book, size, SETUP_ROOM - size)
}

// There are no more schedules than a book has room for, each is in range, and only zeros follow them.
fn schedules_valid(book: &[u8]) -> bool
    requires { SetupKnown most_hours book.now }
    ensures { result ≡ schedules_valid book.now }
{
    let c = counts(book);
    let n = get::<u16>(book, SCHEDULE_COUNT_OFFSET) as usize;
    if MOST_SCHEDULES < n {
        return false;
    }
    let used = SCHEDULE_WIDTH * n;
    schedules_ok(book, SCHEDULES_OFFSET, n, c.points, c.hours)
        & all_zero(
            book,
            SCHEDULES_OFFSET + used,
            SCHEDULE_WIDTH * MOST_SCHEDULES - used,
        )
}

// The phase is one of the three; none pending after the first, schedules only after it, an open batch only in it.
fn phase_valid(book: &[u8]) -> bool
    requires { (length book.now ≡ book_size) × (row_count book.now present_offset ≤ most_rows) }
    ensures { result ≡ phase_valid book.now }
{
    let phase = book[PHASE_OFFSET];
    let flag = book[FLAG_OFFSET];
    let schedules = get::<u16>(book, SCHEDULE_COUNT_OFFSET);
    let rows = get::<u16>(book, PRESENT_OFFSET + ROW_COUNT_OFFSET) as usize;
    let quiet = none_pending(book, PRESENT_OFFSET + ROWS_OFFSET, rows);
    let first = phase == REGISTRATION;
    ((REGISTRATION <= phase) & (phase <= SETTLED) & (flag <= 1))
        & (first | quiet)
        & (!first | (schedules == 0))
        & (first | (flag == 0))
}

// The saved part by itself: zero without a batch, a valid part with one. The table of no rows that is lent is one of no rows again.
fn saved_part_valid(book: &[u8], table: &mut [u32]) -> bool
    requires { SetupKnown most_hours book.now × NoSums most_hours table.old }
    ensures meaning { result ≡ saved_part_valid most_hours book.now }
    ensures table { NoSums most_hours table.new }
{
    if book[FLAG_OFFSET] == 0 {
        return all_zero(book, SAVED_OFFSET, PART_SIZE);
    }
    let valid = part_valid(book, SAVED_OFFSET, PERIODS, table);
    clear(table);
    valid
}

// With a batch the present rows follow from the saved ones.
fn saved_followed(book: &[u8]) -> bool
    requires { (length book.now ≡ book_size) × SavedCounted book.now × (row_count book.now present_offset ≤ most_rows) }
    ensures { result ≡ saved_followed most_hours book.now }
{
    if book[FLAG_OFFSET] == 0 {
        return true;
    }
    let saved = get::<u16>(book, SAVED_OFFSET + ROW_COUNT_OFFSET) as usize;
    let rows = get::<u16>(book, PRESENT_OFFSET + ROW_COUNT_OFFSET) as usize;
    rows_follow(
        book,
        SAVED_OFFSET + ROWS_OFFSET,
        saved,
        PRESENT_OFFSET + ROWS_OFFSET,
        rows,
    )
}

// Whether bytes are the image of a sound book: every section passes its tests, whatever its asks need of the book. It is lent a table of no
// rows; that of a sound book then holds the sums of the book's rows.
pub fn is_sound(book: &[u8], table: &mut [u32]) -> bool
    requires { NoSums most_hours table.old }
    ensures meaning { result ≡ is_sound book.now }
    ensures sums { result ≡ true → SumsOf most_hours (rows_of book.now present_offset) table.new }
{
    if book.len() != BOOK_SIZE {
        return false;
    }
    if !setup_valid(book) {
        return false;
    }
    // One table serves both parts: the saved one first, so that the sums of the present one are left in it.
    if !saved_part_valid(book, table) {
        return false;
    }
    if !part_valid(book, PRESENT_OFFSET, PERIODS, table) {
        return false;
    }
    if !saved_followed(book) {
        return false;
    }
    schedules_valid(book)
        & phase_valid(book)
        & asks_valid(book)
        & all_zero(book, SPARE_OFFSET, BOOK_SIZE - SPARE_OFFSET)
}
