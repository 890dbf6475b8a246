// Whether bytes are those of a sound book.
#![tactic(auto)]

pub mod asks;
pub mod checks;
pub mod part;
pub mod saved;
pub mod twins;
pub mod whole;
