// A day's calls on the bytes of a book: the public functions of the product.
#![tactic(auto)]

pub mod calls;
pub mod interface;
mod kinds;
