// What the test programs share: the cases on standard input and the lines on standard output. tests/README.md has their form.
#![tactic(auto)]

ghost use Rattle.std.specs.Prelude.{◌<◌, ◌≤◌, length, IfOk};
ghost use Rattle.io.specs.Counts.{IsPrefixLen};

use rules::{Numbers, Position, Refusal, ValuedHour};
use std::io::{Read, Result, Write};
use std::result;
use units::MilliCents;
use wire::numbers::get;

// The bytes of a case before its body: a tag and a length.
pub const HEAD: usize = 3;

// Where the case at `at` ends: a tag, a 2-byte length and that many bytes, or what is left of the input.
pub fn case_end(input: &[u8], at: usize) -> usize
    requires { at < length input.now }
    ensures { (at < result) × (result ≤ length input.now) }
{
    let left = input.len() - at;
    if left < HEAD {
        return input.len();
    }
    let size = get::<u16>(input, at + 1) as usize;
    if left - HEAD < size {
        return input.len();
    }
    at + HEAD + size
}

// Reads until the buffer is full or the input ends, and says how many bytes it put at the front.
pub fn read_full<R: Read>(from: &mut R, buffer: &mut [u8]) -> Result<usize>
    ensures { IfOk result (λ n. IsPrefixLen n buffer.new) }
{
    let mut filled = 0;
    // No index: a read says itself how far it came.
    while filled < buffer.len() {
        let more = from.read(&mut buffer[filled..])?;
        if more == 0 {
            return Ok(filled);
        }
        filled += more;
    }
    Ok(filled)
}

// Begins a line.
pub fn begin<W: Write>(out: &mut W, tag: u8) -> Result<()> {
    out.write_all(&[tag])
}

// A number of a line.
pub fn number<W: Write>(out: &mut W, n: u64) -> Result<()> {
    write!(out, " {n}")
}

// A byte of a line, as a number.
pub fn small<W: Write>(out: &mut W, n: u8) -> Result<()> {
    number(out, n as u64)
}

// A number below zero of a line.
pub fn negative<W: Write>(out: &mut W, n: u64) -> Result<()> {
    write!(out, " -{n}")
}

// A number of a line with its sign: the difference of two.
fn difference<W: Write>(out: &mut W, plus: u64, minus: u64) -> Result<()> {
    if plus < minus {
        negative(out, minus - plus)
    } else {
        number(out, plus - minus)
    }
}

// Ends a line.
pub fn end<W: Write>(out: &mut W) -> Result<()> {
    out.write_all(b"\n")
}

// A verdict of a line.
pub fn verdict<W: Write>(out: &mut W, n: Numbers) -> Result<()> {
    number(out, n.number as u64)?;
    number(out, n.first as u64)?;
    number(out, n.second as u64)
}

// A byte in hexadecimal.
fn byte<W: Write>(out: &mut W, b: u8) -> Result<()> {
    write!(out, "{b:02x}")
}

// Bytes of a line, in hexadecimal.
pub fn bytes<W: Write>(out: &mut W, s: &[u8]) -> Result<()> {
    out.write_all(b" ")?;
    for b in s {
        byte(out, *b)?;
    }
    Ok(())
}

const ACCEPTED: Numbers = Numbers {
    number: 0,
    first: 0,
    second: 0,
};

// A net position of a line, with its sign.
fn position<W: Write>(out: &mut W, p: Position) -> Result<()> {
    match p {
        Position::Long(energy) => number(out, energy.0 as u64),
        Position::Short(energy) => negative(out, energy.0 as u64),
    }
}

// The line of a net position that was read.
pub fn net_line<W: Write>(
    out: &mut W,
    account: u8,
    hour: u8,
    reading: result::Result<Position, Refusal>,
) -> Result<()> {
    begin(out, b'a')?;
    small(out, account)?;
    small(out, hour)?;
    match reading {
        Err(r) => verdict(out, r.into())?,
        Ok(p) => {
            verdict(out, ACCEPTED)?;
            position(out, p)?;
        }
    }
    end(out)
}

// What is left of the line of an exposure that was read.
fn exposure_rest<W: Write>(
    out: &mut W,
    reading: result::Result<MilliCents, Refusal>,
) -> Result<()> {
    match reading {
        Err(r) => verdict(out, r.into())?,
        Ok(m) => {
            verdict(out, ACCEPTED)?;
            number(out, m.0)?;
        }
    }
    end(out)
}

// The line of an exposure that was read.
pub fn exposure_line<W: Write>(
    out: &mut W,
    operator: u8,
    reading: result::Result<MilliCents, Refusal>,
) -> Result<()> {
    begin(out, b'e')?;
    small(out, operator)?;
    exposure_rest(out, reading)
}

// The line of an exposure in an hour that was read.
pub fn hourly_exposure_line<W: Write>(
    out: &mut W,
    operator: u8,
    hour: u8,
    reading: result::Result<MilliCents, Refusal>,
) -> Result<()> {
    begin(out, b'i')?;
    small(out, operator)?;
    small(out, hour)?;
    exposure_rest(out, reading)
}

// The line of an account hour: physical balance, purchase, sale, CCT and hourly amount.
pub fn hour_line<W: Write>(out: &mut W, account: u8, hour: u8, x: ValuedHour) -> Result<()> {
    begin(out, b'h')?;
    small(out, account)?;
    small(out, hour)?;
    difference(out, x.physical.bought.0 as u64, x.physical.sold.0 as u64)?;
    number(out, x.purchase.0)?;
    number(out, x.sale.0)?;
    difference(out, x.cct.gained.0, x.cct.lost.0)?;
    difference(out, x.amount.gained.0, x.amount.lost.0)?;
    end(out)
}
