// One case: what the proved functions say of its bytes.
ghost use Rattle.std.specs.Prelude.{◌≤◌, length};

use records::ranges::check_ranges;
use records::reader::read;
use records::writer::write;
use rules::{Counts, Numbers, Refusal, Request};
use std::io::{Result, Write};
use std::result;
use test_lines::{HEAD, begin, bytes, end, number, verdict};
use units::{Cents, CentsPerMwh, Kwh};
use wire::numbers::get;

// The bytes of the buffer of which the writer is lent the first.
const ROOM: u8 = 24;

// The bytes of a request as a case gives it: every field, in the order of the bits.
const REQUEST: usize = 34;

// A line with a verdict.
fn put_numbers<W: Write>(out: &mut W, tag: u8, n: Numbers) -> Result<()> {
    begin(out, tag)?;
    verdict(out, n)?;
    end(out)
}

// The numbers of a row of checks: 0 is acceptance.
fn checked_numbers(c: result::Result<(), Refusal>) -> Numbers {
    match c {
        Ok(()) => Numbers {
            number: 0,
            first: 0,
            second: 0,
        },
        Err(r) => r.into(),
    }
}

fn wide(x: u32) -> u64 {
    x as u64
}

// The fields of bits 0 to 7.
fn trade_fields<W: Write>(out: &mut W, q: Request) -> Result<()> {
    number(out, q.kind as u64)?;
    number(out, q.account as u64)?;
    number(out, q.other as u64)?;
    number(out, q.code)?;
    number(out, q.side as u64)?;
    number(out, q.first as u64)?;
    number(out, q.last as u64)?;
    number(out, wide(q.quantity.0))
}

// The fields of bits 8 to 12.
fn other_fields<W: Write>(out: &mut W, q: Request) -> Result<()> {
    number(out, q.number as u64)?;
    number(out, q.operator as u64)?;
    number(out, q.guarantee.0)?;
    number(out, q.point as u64)?;
    number(out, wide(q.price.0))
}

// The fields of a request in the order of the bits.
fn show_fields<W: Write>(out: &mut W, q: Request) -> Result<()> {
    begin(out, b'f')?;
    trade_fields(out, q)?;
    other_fields(out, q)?;
    end(out)
}

// A request written into the first bytes of the buffer, as many as there is room for, and all of the buffer after it.
fn write_within<W: Write>(out: &mut W, q: Request, room: u8, buffer: &mut [u8]) -> Result<()> {
    let lent = io::count(room as isize, buffer);
    let outcome = write(q, &mut buffer[..lent]);
    begin(out, b'w')?;
    verdict(out, outcome.into())?;
    bytes(out, buffer)?;
    end(out)
}

// A request written into a buffer of which every byte is known.
fn show_written<W: Write>(out: &mut W, q: Request, room: u8) -> Result<()> {
    let mut buffer = [0xAA; 24];
    write_within(out, q, room, &mut buffer)
}

// A record: read, and where it is accepted compared with the counts and written again.
fn show_record<W: Write>(out: &mut W, record: &[u8], counts: Counts) -> Result<()> {
    let reading = read(record);
    match reading {
        Err(r) => put_numbers(out, b'r', r.into()),
        Ok(q) => {
            put_numbers(out, b'r', checked_numbers(Ok(())))?;
            show_fields(out, q)?;
            put_numbers(out, b'c', checked_numbers(check_ranges(q, counts)))?;
            show_written(out, q, ROOM)
        }
    }
}

// The request whose fields the bytes hold, one after the other.
fn request(s: &[u8]) -> Request
    requires { 34 ≤ length s.now }
{
    Request {
        kind: s[0],
        account: s[1],
        other: s[2],
        code: get::<u64>(s, 3),
        side: s[11],
        first: s[12],
        last: s[13],
        quantity: Kwh(get::<u32>(s, 14)),
        number: get::<u16>(s, 18),
        operator: s[20],
        guarantee: Cents(get::<u64>(s, 21)),
        point: s[29],
        price: CentsPerMwh(get::<u32>(s, 30)),
    }
}

// A request, written into as many bytes as the first says.
fn show_writing<W: Write>(out: &mut W, body: &[u8]) -> Result<()> {
    if body.len() < 1 + REQUEST {
        return Ok(());
    }
    let room = body[0];
    show_written(out, request(&body[1..]), room)
}

// The counts that later records are compared with.
fn show_counts<W: Write>(out: &mut W, body: &[u8], before: Counts) -> Result<Counts> {
    if body.len() < 5 {
        return Ok(before);
    }
    let n = setup::counts::counts(body);
    begin(out, b'n')?;
    number(out, n.hours as u64)?;
    number(out, n.operators as u64)?;
    number(out, n.accounts as u64)?;
    number(out, n.points as u64)?;
    number(out, n.zones as u64)?;
    end(out)?;
    Ok(n)
}

// A case. Gives the counts for the cases after it.
pub fn run<W: Write>(out: &mut W, case: &[u8], counts: Counts) -> Result<Counts> {
    if case.len() < HEAD {
        return Ok(counts);
    }
    let tag = case[0];
    let body = &case[HEAD..];
    match tag {
        b'n' => return show_counts(out, body, counts),
        b'r' => show_record(out, body, counts)?,
        b's' => put_numbers(out, b's', checked_numbers(setup::fault::fault(body)))?,
        b'w' => show_writing(out, body)?,
        _ => begin(out, b'?')?,
    }
    Ok(counts)
}
