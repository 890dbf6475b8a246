// Schedules and settlement on a sound book: kinds 9 and 10.
#![tactic(auto)]

pub mod judging;
pub mod schedule;
pub mod settle;
