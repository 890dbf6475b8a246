// Replays the streams on standard input, one after the other: each is a tag, a 4-byte length and that many bytes. tests/days makes the
// input and what is to be printed.
#![tactic(auto)]

ghost use Rattle.std.specs.Prelude.{◌≡◌, ◌≤◌, length};
ghost use Rattle.rules.specs.Limits.{book_size};
ghost use Rattle.replaying.specs.Lent.{step_room};

use printing::{book_buffer, line_buffer, replay_day, stream_buffer};
use replaying::steps::STREAM_ROOM;
use std::io::{Read, Result, Write, writer};
use test_lines::read_full;
use wire::numbers::get;

// The bytes of a case before its stream: a tag and a length.
const HEAD: usize = 5;

// What is read of a stream: the longest that is replayed, and one byte more.
const MOST_READ: u32 = STREAM_ROOM as u32;

// No input has more streams.
const MOST_STREAMS: u64 = 100_000;

// The line before a replay's text.
fn title<W: Write>(to: &mut W, number: u64) -> Result<()> {
    writeln!(to, "day {number}")
}

// Reads `size` bytes, or as many as the buffer has.
fn read_part<R: Read>(from: &mut R, size: u32, buffer: &mut [u8]) -> Result<()> {
    let n = io::count(size as isize, buffer);
    read_full(from, &mut buffer[..n])?;
    Ok(())
}

// Reads a stream. What is past the room for one is let go.
fn read_stream<R: Read>(from: &mut R, size: u32, space: &mut [u8], rest: &mut [u8]) -> Result<()> {
    read_part(from, size, space)?;
    if MOST_READ < size {
        read_part(from, size - MOST_READ, rest)?;
    }
    Ok(())
}

// Replays the next stream. False where none is left.
fn replay_next<R: Read, W: Write>(
    from: &mut R,
    to: &mut W,
    head: &mut [u8],
    space: &mut [u8],
    rest: &mut [u8],
    book: &mut [u8],
    out: &mut [u8],
    number: u64,
) -> Result<bool>
    requires { (length book.old ≡ book_size) × (step_room ≤ length out.old) }
{
    if read_full(from, head)? < HEAD {
        return Ok(false);
    }
    if head.len() < HEAD {
        return Ok(false);
    }
    let size = get::<u32>(head, 1);
    read_stream(from, size, space, rest)?;
    title(to, number)?;
    let n = io::count(size as isize, space);
    replay_day(to, &space[..n], book, out);
    Ok(true)
}

fn replay_all<R: Read, W: Write>(
    from: &mut R,
    to: &mut W,
    head: &mut [u8],
    space: &mut [u8],
    rest: &mut [u8],
    book: &mut [u8],
    out: &mut [u8],
) -> Result<()>
    requires { (length book.old ≡ book_size) × (step_room ≤ length out.old) }
{
    for number in 1..=MOST_STREAMS {
        if !replay_next(from, to, head, space, rest, book, out, number)? {
            return Ok(());
        }
    }
    Ok(())
}

fn main(rt: HostRuntime) -> Result<()> {
    let mut head = [0; HEAD];
    let mut space = stream_buffer();
    let mut rest = io::large_buffer();
    let mut book = book_buffer();
    let mut out = line_buffer();
    replay_all(
        &mut rt.reader(),
        &mut writer(&rt),
        &mut head,
        &mut space,
        &mut rest,
        &mut book,
        &mut out,
    )
}
