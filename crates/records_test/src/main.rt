// Runs the cases on standard input and prints what the record reader, the range checks, the record writer and the set-up's check
// say of each. tests/README.md has the form of a case; tests/paper.py makes the input and what is to be printed.
#![tactic(auto)]

mod cases;

use rules::Counts;
use std::io::{Result, Write, writer};
use test_lines::{case_end, read_full};

fn run_cases<W: Write>(out: &mut W, input: &[u8]) -> Result<()> {
    let mut counts = Counts {
        hours: 0,
        operators: 0,
        accounts: 0,
        points: 0,
        zones: 0,
    };
    let mut at = 0;
    // No index: a case says itself where it ends.
    while at < input.len() {
        let end = case_end(input, at);
        counts = cases::run(out, &input[at..end], counts)?;
        at = end;
    }
    Ok(())
}

fn main(rt: HostRuntime) -> Result<()> {
    let mut space = io::large_buffer();
    let n = read_full(&mut rt.reader(), &mut space)?;
    run_cases(&mut writer(&rt), &space[..n])
}
