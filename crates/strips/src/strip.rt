// Kind 11: a strip, all of its rows or none.
ghost use Rattle.std.specs.Prelude.{◌≡◌, true, None};
ghost use Rattle.rules.specs.Verdicts.{first_to_apply, checked, accepted};
ghost use Rattle.rules.specs.Requests.{strip, is_strip};
ghost use Rattle.rules.specs.Calls.{Call, changed, given, state_checks, step, uncleared};
ghost use Rattle.image.specs.Valid.{is_sound, book_in, book_bytes};
ghost use Rattle.registration.specs.Proposing.{Addable};
ghost use Rattle.strips.specs.Ready.{ReadyStrip, strip_requests, proposer};

use crate::cover::covered_with_strip;
use crate::margins::broken_with;
use crate::rows::append_rows;
use crate::standing::any_is_alike;
use crate::waits::fill_all_waits;
use book::state::phase;
use book::waits::no_waits;
use image::layout::MOST_ROWS;
use rules::Refusal;
use rules::phases::Phase;
use setup::counts::counts;
use strip_rows::record::strip_fault;
use strip_rows::requests::{has_twins, requests_fault};
use strip_rows::rows::{HEAD_LENGTH, ROW_LENGTH, row_request};

// What a strip is refused for once none of its rows has a twin and there is a number for each: a margin that they break together, or an
// exposure that is not covered.
fn margin_or_exposure_fault(book: &[u8], bytes: &[u8], n: usize, account: u8) -> Result<(), Refusal>
    requires known_book { (is_sound book.now ≡ true) × ReadyStrip (book_in book.now) bytes.now n × (account ≡ proposer bytes.now n) }
    requires addable { Addable (book_in book.now) (strip_requests bytes.now n) }
    ensures { result ≡ checked (first_to_apply (state_checks (book_in book.now) strip (strip_requests bytes.now n))) }
{
    let mut waits = no_waits();
    fill_all_waits(&mut waits, book, bytes, n);
    if let Some(hour) = broken_with(book, &waits, account) {
        return Err(Refusal::MarginBroken { hour });
    }
    if covered_with_strip(book, bytes, n, account) {
        return Ok(());
    }
    Err(Refusal::Uncovered)
}

// What the state refuses a strip for.
fn state_fault(book: &[u8], bytes: &[u8], n: usize) -> Result<(), Refusal>
    requires { (is_sound book.now ≡ true) × ReadyStrip (book_in book.now) bytes.now n }
    ensures { result ≡ checked (first_to_apply (state_checks (book_in book.now) strip (strip_requests bytes.now n))) }
{
    if phase(book) != Phase::Registration {
        return Err(Refusal::WrongPhase);
    }
    let first = row_request(&bytes[HEAD_LENGTH..HEAD_LENGTH + ROW_LENGTH]);
    let account = first.account;
    if any_is_alike(book, bytes, n, account) {
        return Err(Refusal::AlreadyPending);
    }
    if has_twins(bytes, HEAD_LENGTH, n) {
        return Err(Refusal::StripTwins);
    }
    if MOST_ROWS < book::state::row_count(book) as usize + n {
        return Err(Refusal::RowsFull);
    }
    margin_or_exposure_fault(book, bytes, n, account)
}

// Writes the rows of a strip that is refused for nothing, and gives the number of the first.
fn accept(book: &mut [u8], bytes: &[u8], n: usize) -> Result<u16, Refusal>
    requires known_book { (is_sound book.old ≡ true) × ReadyStrip (book_in book.old) bytes.now n }
    requires nothing_refuses { first_to_apply (state_checks (book_in book.old) strip (strip_requests bytes.now n)) ≡ None }
    ensures answer { result ≡ accepted (given strip (book_in book.old) (strip_requests bytes.now n)) }
    ensures bytes { book.new ≡ book_bytes (changed strip (book_in book.old) (strip_requests bytes.now n)) }
    ensures still { is_sound book.new ≡ true }
{
    let count = book::state::row_count(book);
    append_rows(book, count, bytes, n);
    let number = count + 1;
    Ok(number)
}

// Kind 11: the rows of the strip are pending under the next numbers, or a refusal changes nothing.
pub fn strip(book: &mut [u8], bytes: &[u8]) -> Result<u16, Refusal>
    requires { (is_sound book.old ≡ true) × (is_strip bytes.now ≡ true) }
    ensures answer { (c : Call) → c.bytes ≡ bytes.now → result ≡ (step (book_in book.old) c).outcome }
    ensures bytes { (c : Call) → c.bytes ≡ bytes.now → book.new ≡ book_bytes (uncleared (book_in book.old) c).book }
    ensures still { is_sound book.new ≡ true }
{
    strip_fault(bytes)?;
    let n = strip_rows::record::row_count(bytes);
    requests_fault(bytes, n, counts(book))?;
    state_fault(book, bytes, n)?;
    accept(book, bytes, n)
}
