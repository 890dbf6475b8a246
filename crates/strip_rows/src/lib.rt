// The record of a strip: what it is refused for before a book is looked at, and its rows, read from it one by one.
#![tactic(auto)]

pub mod faults;
pub mod record;
pub mod requests;
pub mod rows;
