// The sums of all account hours in one table, and margins and exposure read off it.
#![tactic(auto)]

pub mod exposure;
pub mod margins;
pub mod sums;
