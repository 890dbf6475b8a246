// A day's stream replayed item by item on the bytes of a book, and the lines that each item prints.
#![tactic(auto)]

pub mod answers;
pub mod gathering;
pub mod steps;

// What a step did: where the next item begins, none where the replay has ended, and where the lines in the buffer end.
#[derive(Clone, Copy)]
pub struct Stepped {
    pub next: Option<usize>,
    pub end: usize,
}

// How far a replay has come: where the next item begins, none where the replay has ended, which number it has, and where the lines that are
// gathered in the buffer end.
#[derive(Clone, Copy)]
pub struct Gathered {
    pub next: Option<usize>,
    pub number: u64,
    pub end: usize,
}
