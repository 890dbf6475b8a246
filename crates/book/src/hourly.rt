// The hourly exposure of an operator: what of its accounts' net positions lies below zero, and their pending sales, row by row.
ghost use Rattle.std.specs.Prelude.{◌≡◌, true, ◌≤◌};
ghost use Rattle.rules.specs.Basics.{total};
ghost use Rattle.rules.specs.Limits.{most_energy};
ghost use Rattle.rules.specs.Registration.{hourly_exposure};
ghost use Rattle.image.specs.Valid.{is_sound, book_in};
ghost use Rattle.book.specs.Members.{IsAccount, IsHour, IsRow, numbered_row};
ghost use Rattle.book.specs.Worth.{OperatorInputs, most_short};
ghost use Rattle.book.specs.Hourly.{account_short_in_hour, operator_short_in_hour, sale_in_hour, most_operator_short, most_sales};

use crate::state::{row_count, row_offset};
use crate::worth::{account_operators, price, short_at};
use image::rows::row_at;
use rules::hours::waiting;
use rules::sides::SELLS;
use setup::counts::counts;
use units::{Kwh, MilliCents};
use wire::numbers::get;

// ---- net positions below zero

// What of an account's net position in the hour lies below zero: nothing where it is another operator's.
#[tactic(auto, using(crate::proofs::HourlyLaws::short_listed, crate::proofs::HourlyLaws::none_listed))]
fn short_of_account(book: &[u8], operators: &[u8], operator: u8, hour: u8, account: u8) -> Kwh
    requires { let b = book_in book.now in OperatorInputs book.now operators.now × IsHour b hour × IsAccount b account }
    ensures meaning { let b = book_in book.now in result.0 ≡ account_short_in_hour b.setup b.part.rows operator hour account }
    ensures bounded { result.0 ≤ most_short }
{
    if operators[account as usize] == operator {
        return short_at(book, account, hour, None);
    }
    Kwh(0)
}

// The same of all the operator's accounts.
fn short_of_operator(book: &[u8], operators: &[u8], operator: u8, hour: u8) -> Kwh
    requires { OperatorInputs book.now operators.now × IsHour (book_in book.now) hour }
    ensures meaning { let b = book_in book.now in result.0 ≡ operator_short_in_hour b.setup b.part.rows operator hour }
    ensures bounded { result.0 ≤ most_operator_short }
{
    let n = counts(book);
    let mut sum = Kwh(0);
    for account in 1..=n.accounts {
        sum = sum + short_of_account(book, operators, operator, hour, account);
    }
    sum
}

// ---- pending sales

// What the book's row of that number adds to the hour as a pending sale: nothing where it is none, or another operator's.
fn sale_of_row(book: &[u8], operators: &[u8], operator: u8, hour: u8, number: u16) -> Kwh
    requires { OperatorInputs book.now operators.now × IsRow (book_in book.now) number }
    ensures meaning { let b = book_in book.now in result.0 ≡ sale_in_hour b.setup operator hour (numbered_row b number) }
    ensures bounded { result.0 ≤ most_energy }
{
    let at = row_offset(number);
    if operators[get::<u8>(book, at) as usize] != operator {
        return Kwh(0);
    }
    let r = row_at(book, at);
    waiting(r, r.proposer, hour, SELLS)
}

// What all rows of the book add to it.
fn sales_of_operator(book: &[u8], operators: &[u8], operator: u8, hour: u8) -> Kwh
    requires { OperatorInputs book.now operators.now }
    ensures meaning { let b = book_in book.now in result.0 ≡ total (sale_in_hour b.setup operator hour) b.part.rows }
    ensures bounded { result.0 ≤ most_sales }
{
    let rows = row_count(book);
    let mut sum = Kwh(0);
    for number in 1..=rows {
        sum = sum + sale_of_row(book, operators, operator, hour, number);
    }
    sum
}

// ---- both

// The hourly exposure: the hour's sum over the operator's accounts, at the estimated price.
pub fn hourly_exposure(book: &[u8], operator: u8, hour: u8) -> MilliCents
    requires { (is_sound book.now ≡ true) × IsHour (book_in book.now) hour }
    ensures { let b = book_in book.now in result.0 ≡ hourly_exposure b.setup b.part.rows operator hour }
{
    let operators = account_operators(book);
    let below = short_of_operator(book, &operators, operator, hour);
    let waits = sales_of_operator(book, &operators, operator, hour);
    let price = price(book, hour);
    (below + waits).at(price)
}
