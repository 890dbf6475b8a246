// Replays the day on standard input.
#![tactic(auto)]

use printing::{book_buffer, line_buffer, read_stream, replay_day, stream_buffer};
use std::io::writer;

// Says on standard error what failed. Nothing is left to do where that fails too.
fn complain(rt: &impl Eprint, line: &str) {
    let _ = rt.eprintln(line);
}

fn main(rt: HostRuntime) {
    let mut space = stream_buffer();
    let mut book = book_buffer();
    let mut out = line_buffer();
    let Ok(n) = read_stream(&mut rt.reader(), &mut space) else {
        complain(&rt, "replay: reading standard input failed");
        return;
    };
    if !replay_day(&mut writer(&rt), &space[..n], &mut book, &mut out) {
        complain(&rt, "replay: writing standard output failed");
    }
}
