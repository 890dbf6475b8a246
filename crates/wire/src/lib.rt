// Numbers and regions of byte slices, and signed numbers as words.
#![tactic(auto)]

pub mod numbers;
pub mod regions;
pub mod signed;
