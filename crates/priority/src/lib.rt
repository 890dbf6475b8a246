// The schedules in order of priority.
#![tactic(auto)]

pub mod order;
