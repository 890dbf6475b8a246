// Records of requests: read, written, and their fields compared with a book's counts.
#![tactic(auto)]

pub mod checks;
pub mod ranges;
pub mod reader;
pub mod tables;
pub mod writer;
