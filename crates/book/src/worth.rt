// The exposure of an operator in two parts: what of its net positions lies below zero, and its pending sales, row by row.
ghost use Rattle.std.specs.Prelude.{◌≡◌, true, ◌-◌, ◌*◌, ◌^◌, ◌≤◌, ◌<◌, length, get_or};
ghost use Rattle.rules.specs.Basics.{total, Each};
ghost use Rattle.rules.specs.Limits.{most_energy, most_price, most_accounts, most_rows};
ghost use Rattle.rules.specs.Books.{estimate_at};
ghost use Rattle.rules.specs.Registration.{exposure_with};
ghost use Rattle.image.specs.Valid.{is_sound, book_in};
ghost use Rattle.book.specs.Members.{IsAccount, IsHour, IsRow, numbered_row};
ghost use Rattle.book.specs.Worth.{AccountOperators, OperatorInputs, added_rows, QuantityInRange, short_of, short_after, short_worth, sale_worth, PriceSums, PricedSpan, SaleInputs, TradeInRange, account_short, short_share, nets_with, operators_size, sums_size, most_short, most_short_worth, most_sale_worth};

use crate::positions::net_at;
use crate::state::{operator_of, row_count, row_offset};
use image::rows::row_at;
use rules::hours::short;
use rules::limits::{MOST_ACCOUNTS, PERIODS};
use rules::sides::SELLS;
use rules::statuses::{CONFIRMED, PENDING};
use rules::{AccountHour, Net, Row};
use setup::counts::counts;
use setup::entries::estimate;
use units::{CentsPerMwh, Kwh, MilliCents};
use wire::numbers::get;

// How many operators of accounts there are: one for each account that a book can have, and one for no account.
const ACCOUNT_OPERATORS: usize = MOST_ACCOUNTS as usize + 1;

// How many sums of prices there are: one for each hour that a day can have, and one for no hour.
const PRICE_SUMS: usize = PERIODS + 1;

// ---- the accounts' operators

// Puts the operator of each account, by the account's number.
fn fill_operators(operators: &mut [u8], book: &[u8])
    requires { (length operators.old ≡ operators_size) × (is_sound book.now ≡ true) }
    ensures { AccountOperators (book_in book.now).setup operators.new }
{
    let n = counts(book);
    for number in 1..=n.accounts {
        operators[number as usize] = operator_of(book, number);
    }
}

// The operators of all accounts, side by side: entry a is that of account a.
pub fn account_operators(book: &[u8]) -> [u8; ACCOUNT_OPERATORS]
    requires { is_sound book.now ≡ true }
    ensures { AccountOperators (book_in book.now).setup result }
{
    let mut operators = [0u8; ACCOUNT_OPERATORS];
    fill_operators(&mut operators, book);
    operators
}

// ---- prices

// The estimated price of an hour.
pub fn price(book: &[u8], hour: u8) -> CentsPerMwh
    requires { (is_sound book.now ≡ true) × IsHour (book_in book.now) hour }
    ensures meaning { result ≡ estimate_at (book_in book.now).setup hour }
    ensures bounded { result.0 ≤ most_price }
{
    estimate(book, hour)
}

// Puts the sums of the estimated prices, hour by hour.
fn fill_prices(sums: &mut [u64], book: &[u8])
    requires { (length sums.old ≡ sums_size) × (is_sound book.now ≡ true) }
    ensures { PriceSums (book_in book.now).setup sums.new }
{
    let n = counts(book);
    sums[0] = 0;
    for hour in 1..=n.hours {
        let price = price(book, hour);
        sums[hour as usize] = sums[hour as usize - 1] + price.0 as u64;
    }
}

// The sums of the estimated prices: entry k is that of the hours 1 to k.
pub fn price_sums(book: &[u8]) -> [u64; PRICE_SUMS]
    requires { is_sound book.now ≡ true }
    ensures { PriceSums (book_in book.now).setup result }
{
    let mut sums = [0u64; PRICE_SUMS];
    fill_prices(&mut sums, book);
    sums
}

// ---- pending sales

// What a quantity in each hour from `first` to `last` is worth: the sum of prices up to `last`, less that before `first`, times the quantity.
fn span_worth(sums: &[u64], first: u8, last: u8, quantity: Kwh) -> MilliCents
    requires { PricedSpan sums.now first last quantity.0 }
    ensures { result.0 ≡ quantity.0 * (get_or sums.now last 0 - get_or sums.now (first - 1) 0) }
{
    let end = sums[last as usize];
    let start = sums[first as usize - 1];
    MilliCents((quantity.0 as u64) * (end - start))
}

// What a row adds to the operator's exposure as a pending sale.
pub fn sale_of(book: &[u8], sums: &[u64], operators: &[u8], operator: u8, r: Row) -> MilliCents
    requires { SaleInputs book.now sums.now operators.now × TradeInRange (book_in book.now).setup r }
    ensures meaning { result.0 ≡ sale_worth (book_in book.now).setup operator r }
    ensures bounded { result.0 ≤ most_sale_worth }
{
    if (r.status != PENDING) | (r.side != SELLS) {
        return MilliCents(0);
    }
    if operators[r.proposer as usize] == operator {
        return span_worth(sums, r.first, r.last, r.quantity);
    }
    MilliCents(0)
}

// What the book's row of that number adds to it. Most rows are another operator's, so that the operator is tested first.
fn row_sale(book: &[u8], sums: &[u64], operators: &[u8], operator: u8, number: u16) -> MilliCents
    requires { SaleInputs book.now sums.now operators.now × IsRow (book_in book.now) number }
    ensures meaning { let b = book_in book.now in result.0 ≡ sale_worth b.setup operator (numbered_row b number) }
    ensures bounded { result.0 ≤ most_sale_worth }
{
    let at = row_offset(number);
    if operators[get::<u8>(book, at) as usize] != operator {
        return MilliCents(0);
    }
    sale_of(book, sums, operators, operator, row_at(book, at))
}

// What all rows of the book add to it.
fn sales_worth(book: &[u8], sums: &[u64], operators: &[u8], operator: u8) -> MilliCents
    requires { SaleInputs book.now sums.now operators.now }
    ensures meaning { let b = book_in book.now in result.0 ≡ total (sale_worth b.setup operator) b.part.rows }
    ensures bounded { result.0 ≤ most_rows * most_sale_worth }
{
    let rows = row_count(book);
    let mut sum = MilliCents(0);
    for number in 1..=rows {
        sum = sum + row_sale(book, sums, operators, operator, number);
    }
    sum
}

// What the row that is to be added adds to it, if there is one.
fn added_sale(
    book: &[u8],
    sums: &[u64],
    operators: &[u8],
    operator: u8,
    added: Option<Row>,
) -> MilliCents
    requires { SaleInputs book.now sums.now operators.now × Each (TradeInRange (book_in book.now).setup) (added_rows added) }
    ensures meaning { result.0 ≡ total (sale_worth (book_in book.now).setup operator) (added_rows added) }
    ensures bounded { result.0 ≤ most_sale_worth }
{
    match added {
        None => MilliCents(0),
        Some(r) => sale_of(book, sums, operators, operator, r),
    }
}

// ---- net positions below zero

// What of a net position lies below zero after the trade.
fn short_with(net: Net, account: u8, hour: u8, trade: Row) -> Kwh
    requires { (net.bought.0 ≤ most_energy) × (net.sold.0 ≤ most_energy) × (trade.quantity.0 ≤ most_energy) }
    ensures { result.0 ≡ short_after net trade account hour }
{
    if (trade.status == CONFIRMED)
        & ((trade.proposer == account) | (trade.counterparty == account))
    {
        let before = AccountHour {
            net,
            sales: Kwh(0),
            purchases: Kwh(0),
        };
        let after = before.after_trade(trade, account, hour);
        return short(after.net);
    }
    short(net)
}

// What of an account's net position in an hour lies below zero, with what is to be added.
pub fn short_at(book: &[u8], account: u8, hour: u8, added: Option<Row>) -> Kwh
    requires { let b = book_in book.now in (is_sound book.now ≡ true) × IsAccount b account × IsHour b hour × QuantityInRange added }
    ensures meaning { result.0 ≡ short_of (nets_with (book_in book.now) added account hour) }
    ensures bounded { result.0 ≤ most_short }
{
    let net = net_at(book, account, hour);
    match added {
        None => short(net),
        Some(trade) => short_with(net, account, hour, trade),
    }
}

// What of an account's net positions in all hours lies below zero, at estimated prices.
fn account_short(book: &[u8], account: u8, added: Option<Row>) -> MilliCents
    requires { (is_sound book.now ≡ true) × IsAccount (book_in book.now) account × QuantityInRange added }
    ensures meaning { let b = book_in book.now in result.0 ≡ account_short b.setup (nets_with b added) account }
    ensures bounded { result.0 ≤ most_short_worth }
{
    let n = counts(book);
    let mut sum = MilliCents(0);
    for hour in 1..=n.hours {
        let below = short_at(book, account, hour, added);
        let price = price(book, hour);
        sum = sum + below.at(price);
    }
    sum
}

// What the account adds to the operator's sum of these: nothing where it is another operator's.
fn short_share(
    book: &[u8],
    operators: &[u8],
    account: u8,
    operator: u8,
    added: Option<Row>,
) -> MilliCents
    requires { OperatorInputs book.now operators.now × IsAccount (book_in book.now) account × QuantityInRange added }
    ensures meaning { let b = book_in book.now in result.0 ≡ short_share b.setup (nets_with b added) operator account }
    ensures bounded { result.0 ≤ most_short_worth }
{
    if operators[account as usize] == operator {
        return account_short(book, account, added);
    }
    MilliCents(0)
}

// What of the net positions of all the operator's accounts lies below zero, at estimated prices.
fn short_worth(book: &[u8], operators: &[u8], operator: u8, added: Option<Row>) -> MilliCents
    requires { OperatorInputs book.now operators.now × QuantityInRange added }
    ensures meaning { let b = book_in book.now in result.0 ≡ short_worth b.setup (nets_with b added) operator }
    ensures bounded { result.0 ≤ most_accounts * most_short_worth }
{
    let n = counts(book);
    let mut sum = MilliCents(0);
    for account in 1..=n.accounts {
        sum = sum + short_share(book, operators, account, operator, added);
    }
    sum
}

// ---- exposure

// The exposure of an operator, with what is to be added.
pub fn exposure_with(book: &[u8], operator: u8, added: Option<Row>) -> MilliCents
    requires { (is_sound book.now ≡ true) × Each (TradeInRange (book_in book.now).setup) (added_rows added) }
    ensures meaning { let b = book_in book.now in result.0 ≡ exposure_with b.setup b.part.rows (added_rows added) operator }
    ensures bounded { result.0 < 2 ^ 63 }
{
    let sums = price_sums(book);
    let operators = account_operators(book);
    let below = short_worth(book, &operators, operator, added);
    let waits = sales_worth(book, &sums, &operators, operator);
    let own = added_sale(book, &sums, &operators, operator, added);
    below + waits + own
}
