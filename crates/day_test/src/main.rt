// Runs the cases on standard input: opens books, calls, reads, and prints what the public functions answer and whether a refused call
// changed a byte; values account hours. tests/README.md has the form of a case; tests/days makes the input and what is to be printed.
#![tactic(auto)]

mod cases;
mod hours;

use cases::BOOK_SIZE;
use std::io::{Read, Result, Write, writer};
use test_lines::{HEAD, read_full};
use wire::numbers::get;

// No input has more cases.
const MOST_CASES: u32 = 1_000_000;

// Reads the body of a case, as many bytes as its head says.
fn read_body<R: Read>(from: &mut R, size: u16, body: &mut [u8]) -> Result<()> {
    let n = io::count(size as isize, body);
    read_full(from, &mut body[..n])?;
    Ok(())
}

// Runs the next case. False where none is left.
fn run_next<R: Read, W: Write>(
    from: &mut R,
    out: &mut W,
    head: &mut [u8],
    body: &mut [u8],
    book: &mut [u8],
    remembered: &mut [u8],
    before: &mut [u8],
) -> Result<bool> {
    if read_full(from, head)? < HEAD {
        return Ok(false);
    }
    if head.len() < HEAD {
        return Ok(false);
    }
    let size = get::<u16>(head, 1);
    read_body(from, size, body)?;
    let n = io::count(size as isize, body);
    cases::run(out, head[0], &body[..n], book, remembered, before)?;
    Ok(true)
}

fn run_cases<R: Read, W: Write>(
    from: &mut R,
    out: &mut W,
    head: &mut [u8],
    body: &mut [u8],
    book: &mut [u8],
    remembered: &mut [u8],
    before: &mut [u8],
) -> Result<()> {
    for _ in 0..MOST_CASES {
        if !run_next(from, out, head, body, book, remembered, before)? {
            return Ok(());
        }
    }
    Ok(())
}

fn main(rt: HostRuntime) -> Result<()> {
    let mut head = [0; HEAD];
    let mut body = io::large_buffer();
    let mut book = io::large_buffer();
    let mut remembered = io::large_buffer();
    let mut before = io::large_buffer();
    let n = io::count(BOOK_SIZE, &book);
    let m = io::count(BOOK_SIZE, &remembered);
    let k = io::count(BOOK_SIZE, &before);
    let mut from = rt.reader();
    run_cases(
        &mut from,
        &mut writer(&rt),
        &mut head,
        &mut body,
        &mut book[..n],
        &mut remembered[..m],
        &mut before[..k],
    )
}
