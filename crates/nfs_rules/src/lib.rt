//! The rules of the operations on the state: how a request is answered, and what it changes.
#![tactic(auto)]

mod decision;
mod demand;
mod entries;
mod laws;
mod lending;
mod locking;
mod newcomer;
mod opening;
mod operations;
mod passage;
mod ruling;
mod sequence;
mod stateids;
mod transfer;
mod turn;
mod wish;

pub use decision::Decision;
pub use demand::{Demand, Kinds};
pub use entries::expire::{NotExpired, expire};
pub use entries::forget::{NotForgotten, forget, next_idle};
pub use entries::path::mark_path;
pub use entries::revoke::{next_due, revoke};
pub use laws::{
    at_most_one_decision, each_child_is_listed_once, judged_as_sequenced, limit_of_listings,
};
pub use opening::Opening;
pub use operations::decide;
pub use passage::Passage;
pub use ruling::Ruling;
pub use transfer::Transfer;
pub use wish::Wish;
