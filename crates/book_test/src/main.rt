// Runs the cases on standard input: puts bytes into a room and prints what opening, the check of a book and the readings say of
// them. tests/README.md has the form of a case; tests/paper.py makes the input and what is to be printed.
#![tactic(auto)]

mod cases;

use std::io::{Result, Write, writer};
use test_lines::{case_end, read_full};

fn run_cases<W: Write>(out: &mut W, input: &[u8], room: &mut [u8]) -> Result<()> {
    let mut at = 0;
    // No index: a case says itself where it ends.
    while at < input.len() {
        let end = case_end(input, at);
        cases::run(out, &input[at..end], room)?;
        at = end;
    }
    Ok(())
}

fn main(rt: HostRuntime) -> Result<()> {
    let mut space = io::large_buffer();
    let mut room = io::large_buffer();
    let n = read_full(&mut rt.reader(), &mut space)?;
    run_cases(&mut writer(&rt), &space[..n], &mut room)
}
