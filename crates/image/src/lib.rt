// The layout of a book, and its rows, schedules and tables in bytes.
#![tactic(auto)]

pub mod cells;
pub mod layout;
pub mod rows;
pub mod schedules;
