// Set-up bytes: what is wrong with them, and their entries by number.
#![tactic(auto)]

pub mod counts;
pub mod entries;
pub mod fault;
pub mod shape;
pub mod values;
