// A sound book, read from its bytes, and opening.
#![tactic(auto)]

pub mod hourly;
pub mod opening;
pub mod positions;
pub mod readings;
pub mod state;
pub mod waits;
pub mod worth;
