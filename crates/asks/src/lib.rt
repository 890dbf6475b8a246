// Asks: kinds 12 and 13, the places of standing asks, and whether bytes are a book, their asks included.
#![tactic(auto)]

pub mod ask;
pub mod commit;
mod exposures;
pub mod places;
pub mod standing;
mod twins;
pub mod whole;
