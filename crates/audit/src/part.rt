// A part of a book, the present and the saved one alike: what its bytes have to be.
ghost use Rattle.std.specs.Prelude.{◌≡◌, true, ◌+◌, ◌*◌, ◌≤◌, length};
ghost use Rattle.rules.specs.Limits.{most_rows, most_operators};
ghost use Rattle.rules.specs.Opening.{counts_in, setup_of};
ghost use Rattle.rules.specs.Registration.{covered};
ghost use Rattle.image.specs.Valid.{operators_covered};
ghost use Rattle.image.specs.Cells.{rows_from};
ghost use Rattle.image.specs.Layout.{part_size, row_count_offset, rows_offset, nets_offset, most_periods};
ghost use Rattle.tables.specs.Sums.{SumTable, NoSums, SumsOf, ForRowsSummedIn};
ghost use Rattle.audit.specs.Validity.{SetupKnown, GuaranteesKnown, PartKnown, rows_of, part_with, guarantees_valid, rows_valid, sums_valid, part_valid};

use crate::checks::{guarantees_ok, rows_ok};
use crate::twins::no_twins;
use image::layout::{MOST_ROWS, NETS_OFFSET, ROW_COUNT_OFFSET, ROW_WIDTH, ROWS_OFFSET};
use setup::counts::{GUARANTEE_WIDTH, counts};
use setup::entries::operator;
use tables::exposure::exposure_of;
use tables::margins::margins_kept;
use tables::sums::{fill, nets_match};
use units::Cents;
use wire::numbers::get;
use wire::regions::all_zero;

// None of the guarantees is too great, and only zeros follow them.
fn guarantees_valid(book: &[u8], at: usize, operators: usize) -> bool
    requires { (at + row_count_offset ≤ length book.now) × (operators ≤ most_operators) }
    ensures { result ≡ guarantees_valid book.now at operators }
{
    let used = GUARANTEE_WIDTH * operators;
    guarantees_ok(book, at, operators) & all_zero(book, at + used, ROW_COUNT_OFFSET - used)
}

// The rows are in range, no two pending ones are alike, and only zeros follow them.
fn rows_valid(book: &[u8], at: usize, n: usize) -> bool
    requires { (at + nets_offset ≤ length book.now) × (n ≤ most_rows) }
    ensures { result ≡ rows_valid book.now at n }
{
    let c = counts(book);
    let rows = at + ROWS_OFFSET;
    let used = ROW_WIDTH * n;
    rows_ok(book, rows, n, c.accounts, c.hours)
        & all_zero(book, rows + used, ROW_WIDTH * MOST_ROWS - used)
        & no_twins(book, rows, n)
}

// The exposure of the operator is at most what is available of its guarantee in the part at `at`.
fn operator_covered(book: &[u8], at: usize, table: &[u32], top: usize, number: u8) -> bool
    requires setup_known { SetupKnown top book.now × GuaranteesKnown book.now at × SumTable top table.now }
    requires numbered { (1 ≤ number) × (number ≤ (counts_in book.now).operators) }
    ensures { let s = book.now in ForRowsSummedIn top table.now (λ rows. result ≡ covered (setup_of s) (part_with s at rows) number) }
{
    let exposed = exposure_of(book, table, top, number);
    let entry = operator(book, number);
    let guarantee = Cents(get::<u64>(book, at + GUARANTEE_WIDTH * (number as usize - 1)));
    exposed <= guarantee.available(entry.maintenance)
}

// Whether that is so of every operator.
fn operators_covered(book: &[u8], at: usize, table: &[u32], top: usize) -> bool
    requires { SetupKnown top book.now × GuaranteesKnown book.now at × SumTable top table.now }
    ensures { let s = book.now in ForRowsSummedIn top table.now (λ rows. result ≡ operators_covered (setup_of s) (part_with s at rows)) }
{
    let n = counts(book);
    for number in 1..=n.operators {
        if !operator_covered(book, at, table, top, number) {
            return false;
        }
    }
    true
}

// What follows of the sums of the rows: the nets are theirs, margins are kept, and every exposure is covered. The sums are made in the
// table of no rows that is lent, and stay there.
fn sums_valid(book: &[u8], at: usize, top: usize, n: usize, table: &mut [u32]) -> bool
    requires setup_known { SetupKnown top book.now × PartKnown top book.now at n }
    requires no_sums { NoSums top table.old × (top ≤ most_periods) }
    ensures meaning { result ≡ sums_valid top book.now at (rows_from book.now (at + rows_offset) n) }
    ensures sums { SumsOf top (rows_from book.now (at + rows_offset) n) table.new }
{
    fill(table, top, book, at + ROWS_OFFSET, n);
    nets_match(book, at + NETS_OFFSET, table, top)
        & margins_kept(book, table, top)
        & operators_covered(book, at, table, top)
}

// The part that begins at `at` is valid, and its bytes say nothing else. It is lent a table of no rows; that of a valid part then holds the
// sums of its rows.
pub fn part_valid(book: &[u8], at: usize, top: usize, table: &mut [u32]) -> bool
    requires setup_known { SetupKnown top book.now × (at + part_size top ≤ length book.now) }
    requires no_sums { NoSums top table.old × (top ≤ most_periods) }
    ensures meaning { result ≡ part_valid top book.now at }
    ensures sums { result ≡ true → SumsOf top (rows_of book.now at) table.new }
{
    let c = counts(book);
    let rows = get::<u16>(book, at + ROW_COUNT_OFFSET) as usize;
    if MOST_ROWS < rows {
        return false;
    }
    if !guarantees_valid(book, at, c.operators as usize) {
        return false;
    }
    if !rows_valid(book, at, rows) {
        return false;
    }
    sums_valid(book, at, top, rows, table)
}
