// The exposures of all operators, side by side.
ghost use Rattle.std.specs.Prelude.{◌≡◌, true, length};
ghost use Rattle.rules.specs.Limits.{most_hours};
ghost use Rattle.image.specs.Valid.{is_sound, book_in};
ghost use Rattle.tables.specs.Sums.{SumsOf};
ghost use Rattle.asks.specs.Standing.{OperatorExposures, exposures_size};

use rules::limits::{MOST_OPERATORS, PERIODS};
use setup::counts::counts;
use tables::exposure::exposure_of;

// How many exposures there are: one for each operator that a book can have, and one for no operator.
const OPERATOR_EXPOSURES: usize = MOST_OPERATORS as usize + 1;

// Puts the exposure of each operator, by the operator's number; `table` holds the sums of the book's rows.
fn fill_exposures(exposures: &mut [u64], book: &[u8], table: &[u32])
    requires exposures_fit { (length exposures.old ≡ exposures_size) × (is_sound book.now ≡ true) }
    requires sums_of { SumsOf most_hours (book_in book.now).part.rows table.now }
    ensures { OperatorExposures (book_in book.now) exposures.new }
{
    let n = counts(book);
    for number in 1..=n.operators {
        let owed = exposure_of(book, table, PERIODS, number);
        exposures[number as usize] = owed.0;
    }
}

// The exposures of all operators: entry o is that of operator o.
pub fn operator_exposures(book: &[u8], table: &[u32]) -> [u64; OPERATOR_EXPOSURES]
    requires { (is_sound book.now ≡ true) × SumsOf most_hours (book_in book.now).part.rows table.now }
    ensures { OperatorExposures (book_in book.now) result }
{
    let mut exposures = [0u64; OPERATOR_EXPOSURES];
    fill_exposures(&mut exposures, book, table);
    exposures
}
