// Batches and the gate on a sound book: kinds 5 to 8.
#![tactic(auto)]

pub mod gate;
pub mod saving;
