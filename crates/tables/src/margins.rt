// The margins of all accounts, by the table of sums.
ghost use Rattle.std.specs.Prelude.{◌≡◌, ◌≤◌};
ghost use Rattle.rules.specs.Opening.{counts_in, setup_of};
ghost use Rattle.image.specs.Valid.{account_keeps, margins_kept};
ghost use Rattle.image.specs.Tables.{SetupTabled};
ghost use Rattle.tables.specs.Sums.{SumTable, ForRowsSummedIn};

use crate::sums::account_hour;
use rules::hours::keeps_margins;
use setup::counts::counts;
use setup::entries::margins;

// Whether the account of that number keeps its margins in each hour.
fn hours_kept(book: &[u8], table: &[u32], top: usize, number: u8) -> bool
    requires { SetupTabled top book.now × SumTable top table.now × (1 ≤ number) × (number ≤ (counts_in book.now).accounts) }
    ensures { ForRowsSummedIn top table.now (λ rows. result ≡ account_keeps (setup_of book.now) rows number) }
{
    let n = counts(book);
    for hour in 1..=n.hours {
        let own = margins(book, number, hour);
        let x = account_hour(table, top, number, hour);
        if !keeps_margins(own, x) {
            return false;
        }
    }
    true
}

// Whether every account keeps its margins in every hour.
pub fn margins_kept(book: &[u8], table: &[u32], top: usize) -> bool
    requires { SetupTabled top book.now × SumTable top table.now }
    ensures { ForRowsSummedIn top table.now (λ rows. result ≡ margins_kept (setup_of book.now) rows) }
{
    let n = counts(book);
    for number in 1..=n.accounts {
        if !hours_kept(book, table, top, number) {
            return false;
        }
    }
    true
}
