// One case: what the proved functions say of the bytes in the room, of which the first 49,152 are the book.
use asks::whole::is_book;
use book::opening::open;
use day::interface::{exposure, net};
use std::io::{Result, Write};
use test_lines::{HEAD, begin, bytes, end, exposure_line, net_line, number, small, verdict};
use wire::numbers::get;
use wire::regions::copy_in;

// The bytes of the room that are judged and read.
const BOOK_SIZE: u16 = image::layout::BOOK_SIZE as u16;

// Opens a book in the first bytes of the room, as many as asked for.
fn show_open<W: Write>(out: &mut W, body: &[u8], room: &mut [u8]) -> Result<()> {
    if body.len() < 2 {
        return Ok(());
    }
    let lent = io::count(get::<u16>(body, 0) as isize, room);
    let outcome = open(&body[2..], &mut room[..lent]);
    begin(out, b'o')?;
    verdict(out, outcome.into())?;
    end(out)
}

// Whether the first bytes of the room are a book, as 1 or 0.
fn book_flag(size: u16, room: &[u8]) -> u64 {
    let n = io::count(size as isize, room);
    if is_book(&room[..n]) {
        return 1;
    }
    0
}

// Whether so many bytes of the room are a book.
fn show_judged<W: Write>(out: &mut W, body: &[u8], room: &[u8]) -> Result<()> {
    if body.len() < 2 {
        return Ok(());
    }
    let size = get::<u16>(body, 0);
    begin(out, b'l')?;
    number(out, size as u64)?;
    number(out, book_flag(size, room))?;
    end(out)
}

// Puts bytes into the room, from the offset that stands before them.
fn put(body: &[u8], room: &mut [u8]) {
    if body.len() < 2 {
        return;
    }
    let at = get::<u16>(body, 0) as usize;
    let put = &body[2..];
    if room.len() < at {
        return;
    }
    if room.len() - at < put.len() {
        return;
    }
    copy_in(room, at, put);
}

// Puts a byte into the room. Gives the one that stood there.
fn exchange(room: &mut [u8], at: usize, new: u8) -> u8 {
    if room.len() <= at {
        return new;
    }
    let old = room[at];
    room[at] = new;
    old
}

// Whether the room has a book with one byte changed. The byte is put back.
fn show_damaged<W: Write>(out: &mut W, body: &[u8], room: &mut [u8]) -> Result<()> {
    if body.len() < 3 {
        return Ok(());
    }
    let offset = get::<u16>(body, 0);
    let new = body[2];
    let old = exchange(room, offset as usize, new);
    let flag = book_flag(BOOK_SIZE, room);
    exchange(room, offset as usize, old);
    begin(out, b'd')?;
    number(out, offset as u64)?;
    small(out, new)?;
    number(out, flag)?;
    end(out)
}

// The net position of an account in an hour.
fn show_net<W: Write>(out: &mut W, body: &[u8], room: &[u8]) -> Result<()> {
    if body.len() < 2 {
        return Ok(());
    }
    let n = io::count(BOOK_SIZE as isize, room);
    net_line(out, body[0], body[1], net(&room[..n], body[0], body[1]))
}

// The exposure of an operator.
fn show_exposure<W: Write>(out: &mut W, body: &[u8], room: &[u8]) -> Result<()> {
    if body.len() < 1 {
        return Ok(());
    }
    let n = io::count(BOOK_SIZE as isize, room);
    exposure_line(out, body[0], exposure(&room[..n], body[0]))
}

// Bytes of the room: from an offset on, as many as asked for.
fn show_bytes<W: Write>(out: &mut W, body: &[u8], room: &[u8]) -> Result<()> {
    if body.len() < 4 {
        return Ok(());
    }
    let from = io::count(get::<u16>(body, 0) as isize, room);
    let rest = &room[from..];
    let n = io::count(get::<u16>(body, 2) as isize, rest);
    begin(out, b'x')?;
    bytes(out, &rest[..n])?;
    end(out)
}

// A case. What it puts into the room stands for the cases after it.
pub fn run<W: Write>(out: &mut W, case: &[u8], room: &mut [u8]) -> Result<()> {
    if case.len() < HEAD {
        return Ok(());
    }
    let tag = case[0];
    let body = &case[HEAD..];
    match tag {
        b'o' => show_open(out, body, room),
        b'l' => show_judged(out, body, room),
        b'p' => {
            put(body, room);
            Ok(())
        }
        b'd' => show_damaged(out, body, room),
        b'a' => show_net(out, body, room),
        b'e' => show_exposure(out, body, room),
        b'x' => show_bytes(out, body, room),
        _ => begin(out, b'?'),
    }
}
