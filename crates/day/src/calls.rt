// A call: of any bytes, and of bytes that are known to be a book.
ghost use Rattle.std.specs.Prelude.{◌≡◌, true};
ghost use Rattle.rules.specs.Calls.{Gives};
ghost use Rattle.rules.specs.Asks.{clears_asks};
ghost use Rattle.image.specs.Valid.{is_sound, is_book};
ghost use Rattle.day.specs.Answers.{call_on, change_on};

use crate::kinds::answer;
use asks::places::clear_asks;
use asks::whole::is_book;
use records::reader::{is_of_kind, read};
use rules::kinds::{ASK, SETTLE};
use rules::{Outcome, Refusal};
use settlement::settle::settle;
use strip_rows::record::is_strip;
use strips::strip::strip;

// What a call on bytes that are known to be a book answers and leaves, before asks are cleared.
fn change_in(
    bytes: &[u8],
    book: &mut [u8],
    prices: &[u8],
    results: &mut [u8],
    balances: &mut [u8],
) -> Result<u16, Refusal>
    requires { is_book book.old ≡ true }
    ensures answer { Gives
        (change_on book.old bytes.now prices.now results.old balances.old)
        result book.new results.new balances.new }
    ensures still { is_sound book.new ≡ true }
{
    if is_strip(bytes) {
        return strip(book, bytes);
    }
    let request = read(bytes)?;
    if request.kind == SETTLE {
        return settle(book, prices, results, balances);
    }
    answer(book, request)
}

// Whether a call with these bytes that is answered so clears the asks: every accepted one but an ask.
fn clears_asks(bytes: &[u8], verdict: Result<u16, Refusal>) -> bool
    ensures { result ≡ clears_asks bytes.now verdict }
{
    verdict.is_ok() && !is_of_kind(bytes, ASK)
}

// A call on bytes that are known to be a book. It leaves a book.
pub fn call_in(
    bytes: &[u8],
    book: &mut [u8],
    prices: &[u8],
    results: &mut [u8],
    balances: &mut [u8],
) -> Outcome
    requires { is_book book.old ≡ true }
    ensures answer { Gives
        (call_on book.old bytes.now prices.now results.old balances.old)
        result.verdict book.new results.new balances.new }
    ensures still { is_book book.new ≡ true }
{
    let verdict = change_in(bytes, book, prices, results, balances);
    if clears_asks(bytes, verdict) {
        clear_asks(book);
    }
    Outcome { verdict }
}

// A call on any bytes, refused (1) where they are no book.
pub fn call(
    bytes: &[u8],
    book: &mut [u8],
    prices: &[u8],
    results: &mut [u8],
    balances: &mut [u8],
) -> Outcome
    ensures answer { Gives
        (call_on book.old bytes.now prices.now results.old balances.old)
        result.verdict book.new results.new balances.new }
{
    if is_book(book) {
        return call_in(bytes, book, prices, results, balances);
    }
    Outcome {
        verdict: Err(Refusal::NotABook),
    }
}
