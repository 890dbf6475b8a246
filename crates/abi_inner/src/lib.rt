// Calls and readings for programs in other languages that keep the bytes of their book to themselves: no test that the bytes are a book.
#![tactic(auto)]

pub mod exports;
