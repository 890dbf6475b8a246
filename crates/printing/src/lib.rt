// A replay on a writer: opens the book of a stream's set-up, answers each item, and writes the lines that they print.
#![tactic(auto)]

ghost use Rattle.std.specs.Prelude.{◌≡◌, ◌+◌, ◌≤◌, length, IfOk, IfErr};
ghost use Rattle.rules.specs.Limits.{book_size, longest_stream};
ghost use Rattle.replaying.specs.Lent.{step_room};
ghost use Rattle.io.specs.Counts.{IsPrefixLen};
ghost use Rattle.printing.specs.Rounds.{Replayed};

use image::layout::BOOK_SIZE;
use replaying::Gathered;
use replaying::gathering::{gather, gather_first};
use replaying::steps::STREAM_ROOM;
use std::io::{Read, Write};

// Bytes of lines that are written together; those of any step fit in.
const LINES_ROOM: usize = 65_536;

// Room for a stream.
pub fn stream_buffer() -> [u8; STREAM_ROOM]
    ensures { longest_stream + 1 ≡ length result }
{
    [0; STREAM_ROOM]
}

// Room for a book.
pub fn book_buffer() -> [u8; BOOK_SIZE]
    ensures { book_size ≡ length result }
{
    [0; BOOK_SIZE]
}

// Room for the lines that are written together.
pub fn line_buffer() -> [u8; LINES_ROOM]
    ensures { step_room ≤ length result }
{
    [0; LINES_ROOM]
}

// A read that failed, and how many bytes were read before it.
#[derive(Clone, Copy)]
pub struct ReadFailed {
    pub length: usize,
}

// Reads until the input ends, the buffer is full, or a read fails. Gives how many bytes it put at the front.
pub fn read_stream<R: Read>(from: &mut R, space: &mut [u8]) -> Result<usize, ReadFailed>
    ensures filled { IfOk result (λ n. IsPrefixLen n space.new) }
    ensures failed { IfErr result (λ e. IsPrefixLen e.length space.new) }
{
    let mut filled = 0;
    // No index: a read says itself how far it came.
    while filled < space.len() {
        match from.read(&mut space[filled..]) {
            Ok(0) => return Ok(filled),
            Ok(more) => filled += more,
            Err(_) => return Err(ReadFailed { length: filled }),
        }
    }
    Ok(filled)
}

// Writes the gathered lines, and says whether all were written.
fn write_lines<W: Write>(to: &mut W, out: &[u8], gathered: Gathered) -> bool
    requires { gathered.end ≤ length out.now }
{
    let end = gathered.end;
    to.write_all(&out[..end]).is_ok()
}

// Replays a stream, in bytes lent for its book and for the lines that are written together. Says whether all lines were written: a write that
// fails ends the replay.
pub fn replay_day<W: Write>(to: &mut W, stream: &[u8], book: &mut [u8], out: &mut [u8]) -> bool
    requires { (length book.old ≡ book_size) × (step_room ≤ length out.old) }
    ensures { Replayed stream.now book.old out.old book.new out.new result }
{
    let first = gather_first(stream, book, out);
    let mut gathered = gather(stream, first, book, out);
    let mut written = write_lines(to, out, gathered);
    // No index: the rounds end by the state.
    while written && gathered.next.is_some() {
        gathered.end = 0;
        gathered = gather(stream, gathered, book, out);
        written = write_lines(to, out, gathered);
    }
    written
}
