//! Rows in the order in which they came, found by their numbers, and by a hash of their names.
#![tactic(auto)]

mod iter;
mod name_hash;
mod parts;
mod place;
mod rows;
mod seeds;

pub use iter::Iter;
pub use rows::Rows;
pub use seeds::{IdSeed, OwnerSeed};
