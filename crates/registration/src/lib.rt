// Registration on a sound book: kinds 1 to 4.
#![tactic(auto)]

pub mod confirm;
pub mod cover;
pub mod guarantee;
pub mod margins;
pub mod positions;
pub mod register;
pub mod search;
pub mod withdraw;
