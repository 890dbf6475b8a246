// The account hours of a book valued at a price table, and the line that each prints.
ghost use Rattle.std.specs.Prelude.{◌≡◌, true};
ghost use Rattle.image.specs.Valid.{is_sound, book_in};
ghost use Rattle.book.specs.Members.{IsAccount};
ghost use Rattle.valuation.specs.Tables.{Priced};
ghost use Rattle.valuation.specs.Registered.{AllRegistered};
ghost use Rattle.settlement.specs.Judging.{by_priority};

use asks::whole::is_book;
use book::state::schedule_count;
use rules::Placed;
use settlement::judging::{judge_all, prioritised_in};
use settlement::settle::{no_results, price_count};
use setup::counts::{PRICE_WIDTH, counts};
use std::io::{Result, Write};
use test_lines::hour_line;
use valuation::hours::value_hour;
use valuation::prices::too_high;
use valuation::registered::Registered;

// The lines of an account.
fn show_account<W: Write>(
    out: &mut W,
    book: &[u8],
    prices: &[u8],
    registered: &Registered,
    number: u8,
) -> Result<()>
    requires priced { Priced book.now prices.now × IsAccount (book_in book.now) number }
    requires all_registered { AllRegistered book.now prices.now registered.now.energy registered.now.charges }
{
    let n = counts(book);
    for hour in 1..=n.hours {
        let valued = value_hour(book, prices, registered, number, hour);
        hour_line(out, number, hour, valued)?;
    }
    Ok(())
}

// The lines of all accounts.
fn show_accounts<W: Write>(
    out: &mut W,
    book: &[u8],
    prices: &[u8],
    registered: &Registered,
) -> Result<()>
    requires priced { Priced book.now prices.now }
    requires all_registered { AllRegistered book.now prices.now registered.now.energy registered.now.charges }
{
    let n = counts(book);
    for number in 1..=n.accounts {
        show_account(out, book, prices, registered, number)?;
    }
    Ok(())
}

// Judges the schedules in their order and values each account hour.
fn show_in_order<W: Write>(out: &mut W, book: &[u8], prices: &[u8], order: &[Placed]) -> Result<()>
    requires { Priced book.now prices.now × (order.now ≡ by_priority book.now) }
{
    let mut results = no_results();
    let mut registered = Registered::none();
    judge_all(book, prices, order, &mut registered, &mut results);
    show_accounts(out, book, prices, &registered)
}

// The lines of a book at a price table for it.
fn show_valued<W: Write>(out: &mut W, book: &[u8], prices: &[u8]) -> Result<()>
    requires { Priced book.now prices.now }
{
    let n = schedule_count(book) as usize;
    let order = prioritised_in(book, n);
    show_in_order(out, book, prices, &order[..n])
}

// The lines of a book, where the price table is one for it.
fn show_priced<W: Write>(out: &mut W, book: &[u8], prices: &[u8]) -> Result<()>
    requires { is_sound book.now ≡ true }
{
    let n = price_count(book);
    if prices.len() != PRICE_WIDTH * n {
        return Ok(());
    }
    if too_high(prices, n) {
        return Ok(());
    }
    show_valued(out, book, prices)
}

// The lines of every account hour: none where the bytes are no book, or the price table is not one for it.
pub fn show_hours<W: Write>(out: &mut W, prices: &[u8], book: &[u8]) -> Result<()> {
    if is_book(book) {
        show_priced(out, book, prices)?;
    }
    Ok(())
}
