//! From the number of a state to the node of its file.
#![tactic(auto)]

mod nodes;
mod numbers;

pub use nodes::Nodes;
pub use numbers::{Numbered, reserve_number};
