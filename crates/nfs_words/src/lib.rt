//! Leases of clients as words that any thread reads and raises without a lock, and a book of leases over them.
#![tactic(auto)]

mod event;
mod laws;
mod lease_seat;
mod rule;
#[cfg(test)]
mod tests;
mod word;
mod word_desk;
mod word_leases;

pub use event::{Deed, Event};
pub use laws::{answers_alone, rules_hold};
pub use lease_seat::LeaseSeat;
pub use word_desk::WordDesk;
pub use word_leases::WordLeases;
