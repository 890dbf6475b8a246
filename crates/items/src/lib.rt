// The replay's items and lines: the stream cut into items, and what the answers print.
#![tactic(auto)]

pub mod figures;
pub mod lines;
pub mod lists;
pub mod reader;
pub mod stream;
pub mod text;

// What is found at an offset of a stream: an item whose bytes run from `from` to `end`, one that is cut short, or nothing.
#[derive(Clone, Copy)]
pub enum Found {
    Whole { from: usize, end: usize },
    Cut,
    End,
}

// A lent buffer with lines at its front, which end at `end`.
#[derive(Drop)]
pub struct LineBuffer<'a> {
    pub out: &'a mut [u8],
    pub end: usize,
}
