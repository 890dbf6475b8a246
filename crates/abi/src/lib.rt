// The book for programs in other languages: the functions of `day` on numbers and byte slices.
#![tactic(auto)]

pub mod exports;
mod fields;
pub mod lending;
pub mod packing;
