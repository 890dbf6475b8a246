// One case: a call of one of the public functions on the book, or its account hours valued, and the lines that it prints.
use crate::hours::show_hours;
use day::calls::call;
use day::interface::{exposure, hourly_exposure, net, open};
use rules::Numbers;
use rules::kinds::SETTLE;
use std::io::{Result, Write};
use test_lines::{
    begin, bytes, end, exposure_line, hourly_exposure_line, net_line, number, verdict,
};
use wire::numbers::get;
use wire::regions::copy_in;

pub const BOOK_SIZE: isize = image::layout::BOOK_SIZE as isize;

// What stands in each byte of an output buffer before a call.
const UNWRITTEN: u8 = 0xAA;

// Opens a book.
fn show_open<W: Write>(out: &mut W, body: &[u8], book: &mut [u8]) -> Result<()> {
    let outcome = open(body, book);
    begin(out, b'o')?;
    verdict(out, outcome.into())?;
    end(out)
}

// A line for a refused call that changed a byte, and the two buffers after an accepted settle.
fn show_buffers<W: Write>(
    out: &mut W,
    record: &[u8],
    answer: Numbers,
    kept: bool,
    results: &[u8],
    balances: &[u8],
) -> Result<()> {
    if answer.number != 0 {
        if !kept {
            out.write_all(b"changed\n")?;
        }
        return Ok(());
    }
    if record.len() < 3 {
        return Ok(());
    }
    if record[2] == SETTLE {
        begin(out, b'r')?;
        bytes(out, results)?;
        end(out)?;
        begin(out, b'b')?;
        bytes(out, balances)?;
        end(out)?;
    }
    Ok(())
}

// Whether each byte is as it was before the call.
fn is_unwritten(buffer: &[u8]) -> bool {
    buffer.iter().all(|b| *b == UNWRITTEN)
}

// Remembers the book's bytes.
fn remember(book: &[u8], remembered: &mut [u8]) {
    if remembered.len() < book.len() {
        return;
    }
    copy_in(remembered, 0, book);
}

// A call whose two buffers are not written yet.
fn called(
    record: &[u8],
    book: &mut [u8],
    prices: &[u8],
    results: &mut [u8],
    balances: &mut [u8],
) -> Numbers {
    results.fill(UNWRITTEN);
    balances.fill(UNWRITTEN);
    call(record, book, prices, results, balances).into()
}

// The line of a call.
fn show_verdict<W: Write>(out: &mut W, answer: Numbers) -> Result<()> {
    begin(out, b'c')?;
    verdict(out, answer)?;
    end(out)
}

// A call with two buffers. The book's bytes before it go into `before`.
fn show_answer<W: Write>(
    out: &mut W,
    record: &[u8],
    book: &mut [u8],
    before: &mut [u8],
    prices: &[u8],
    results: &mut [u8],
    balances: &mut [u8],
) -> Result<()> {
    remember(book, before);
    let answer = called(record, book, prices, results, balances);
    show_verdict(out, answer)?;
    let kept = (&*before == &*book) & is_unwritten(results) & is_unwritten(balances);
    show_buffers(out, record, answer, kept, results, balances)
}

// A call: the sizes of the two buffers, the length of its record, the record, the price table.
fn show_call<W: Write>(out: &mut W, body: &[u8], book: &mut [u8], before: &mut [u8]) -> Result<()> {
    if body.len() < 6 {
        return Ok(());
    }
    let mut results = io::buffer();
    let mut balances = io::buffer();
    let first = io::count(get::<u16>(body, 0) as isize, &results);
    let second = io::count(get::<u16>(body, 2) as isize, &balances);
    let rest = &body[6..];
    let n = io::count(get::<u16>(body, 4) as isize, rest);
    show_answer(
        out,
        &rest[..n],
        book,
        before,
        &rest[n..],
        &mut results[..first],
        &mut balances[..second],
    )
}

// The net position of an account in an hour.
fn show_net<W: Write>(out: &mut W, body: &[u8], book: &[u8]) -> Result<()> {
    if body.len() < 2 {
        return Ok(());
    }
    net_line(out, body[0], body[1], net(book, body[0], body[1]))
}

// The exposure of an operator.
fn show_exposure<W: Write>(out: &mut W, body: &[u8], book: &[u8]) -> Result<()> {
    if body.len() < 1 {
        return Ok(());
    }
    exposure_line(out, body[0], exposure(book, body[0]))
}

// The exposures of an operator in the hours from `first` to `last`.
fn show_hourly<W: Write>(
    out: &mut W,
    book: &[u8],
    operator: u8,
    first: u8,
    last: u8,
) -> Result<()> {
    for hour in first..=last {
        hourly_exposure_line(out, operator, hour, hourly_exposure(book, operator, hour))?;
    }
    Ok(())
}

// An operator, and the first and the last hour.
fn show_by_hour<W: Write>(out: &mut W, body: &[u8], book: &[u8]) -> Result<()> {
    if body.len() < 3 {
        return Ok(());
    }
    show_hourly(out, book, body[0], body[1], body[2])
}

// Whether the book's bytes are those remembered.
fn show_same<W: Write>(out: &mut W, book: &[u8], remembered: &[u8]) -> Result<()> {
    begin(out, b'=')?;
    number(out, (book == remembered) as u64)?;
    end(out)
}

// Puts bytes into the book, from the offset that stands before them.
fn damage(body: &[u8], book: &mut [u8]) {
    if body.len() < 2 {
        return;
    }
    let at = get::<u16>(body, 0) as usize;
    let put = &body[2..];
    if book.len() < at {
        return;
    }
    if book.len() - at < put.len() {
        return;
    }
    copy_in(book, at, put);
}

// A case. The book and what is remembered of it stand for the cases after it.
pub fn run<W: Write>(
    out: &mut W,
    tag: u8,
    body: &[u8],
    book: &mut [u8],
    remembered: &mut [u8],
    before: &mut [u8],
) -> Result<()> {
    match tag {
        b'o' => show_open(out, body, book),
        b'c' => show_call(out, body, book, before),
        b'a' => show_net(out, body, book),
        b'e' => show_exposure(out, body, book),
        b'i' => show_by_hour(out, body, book),
        b'k' => {
            remember(book, remembered);
            Ok(())
        }
        b'h' => show_hours(out, body, book),
        b'=' => show_same(out, book, remembered),
        b'p' => {
            damage(body, book);
            Ok(())
        }
        _ => begin(out, b'?'),
    }
}
