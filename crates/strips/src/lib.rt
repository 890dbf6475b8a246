// A strip of trades on a sound book: all of its rows, or none (kind 11).
#![tactic(auto)]

mod cover;
mod margins;
mod rows;
mod standing;
pub mod strip;
mod waits;
