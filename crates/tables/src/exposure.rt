// The exposure of an operator, by the table of sums.
ghost use Rattle.std.specs.Prelude.{◌≡◌, ◌≤◌};
ghost use Rattle.rules.specs.Limits.{most_price};
ghost use Rattle.rules.specs.Opening.{counts_in, setup_of};
ghost use Rattle.rules.specs.Registration.{exposed_amount, exposure};
ghost use Rattle.image.specs.Tables.{SetupTabled};
ghost use Rattle.tables.specs.Sums.{SumTable, ForRowsSummedIn, AccountInTable, EstimatesInRange, most_hour_exposure, most_account_exposure, account_exposure, exposure_share};

use crate::sums::account_hour;
use rules::AccountHour;
use rules::hours::short;
use setup::counts::counts;
use setup::entries::{account_operator, estimate};
use units::{CentsPerMwh, MilliCents};

// The exposure of an account hour at a price: what lies below zero, and the account's own pending sales in full.
fn hour_exposure(x: AccountHour, price: CentsPerMwh) -> MilliCents
    requires { price.0 ≤ most_price }
    ensures { (result.0 ≡ exposed_amount price x) × (result.0 ≤ most_hour_exposure) }
{
    let short = short(x.net);
    let owed = short.at(price);
    let waits = x.sales.at(price);
    owed + waits
}

// The exposure of an account over all hours, at the estimated prices.
fn account_exposure(book: &[u8], table: &[u32], top: usize, number: u8) -> MilliCents
    requires { SetupTabled top book.now × EstimatesInRange book.now × SumTable top table.now × AccountInTable number }
    ensures meaning { ForRowsSummedIn top table.now (λ rows. result.0 ≡ account_exposure (setup_of book.now) rows number) }
    ensures bounded { result.0 ≤ most_account_exposure }
{
    let n = counts(book);
    let mut sum = MilliCents(0);
    for hour in 1..=n.hours {
        let x = account_hour(table, top, number, hour);
        let price = estimate(book, hour);
        sum = sum + hour_exposure(x, price);
    }
    sum
}

// What an account adds to the operator's exposure: nothing where it is another's.
fn exposure_share(book: &[u8], table: &[u32], top: usize, number: u8, operator: u8) -> MilliCents
    requires setup_tabled { SetupTabled top book.now × EstimatesInRange book.now × SumTable top table.now }
    requires numbered { (1 ≤ number) × (number ≤ (counts_in book.now).accounts) }
    ensures meaning { ForRowsSummedIn top table.now (λ rows. result.0 ≡ exposure_share (setup_of book.now) rows operator number) }
    ensures bounded { result.0 ≤ most_account_exposure }
{
    if account_operator(book, number) == operator {
        return account_exposure(book, table, top, number);
    }
    MilliCents(0)
}

// The exposure of an operator.
pub fn exposure_of(book: &[u8], table: &[u32], top: usize, operator: u8) -> MilliCents
    requires { SetupTabled top book.now × EstimatesInRange book.now × SumTable top table.now }
    ensures { ForRowsSummedIn top table.now (λ rows. result.0 ≡ exposure (setup_of book.now) rows operator) }
{
    let n = counts(book);
    let mut sum = MilliCents(0);
    for number in 1..=n.accounts {
        sum = sum + exposure_share(book, table, top, number, operator);
    }
    sum
}
