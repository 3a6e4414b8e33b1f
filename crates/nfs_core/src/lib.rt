//! The server's state in one value that can't break its rules, with the journal of its changes.
#![tactic(auto)]

mod answering;
mod committing;
mod core_error;
mod core_state;
mod entered;
mod entering;
mod event;
mod following;
mod forgetting;
mod forgotten;
mod holdings;
mod laws;
mod named_calls;
mod pending_recalls;
mod recalling;
mod revoking;

pub use core_error::CoreError;
pub use core_state::Core;
pub use entered::Entered;
pub use event::Event;
pub use following::FollowError;
pub use forgotten::Forgotten;
pub use laws::{
    at_most_one_state, at_most_one_step, forgotten_are_as_new, lawful_is_safe, live_clients_follow,
    newcomers_find_slots, only_idle_owners_go, openers_stay, others_recall_nothing,
    recalls_are_one_list, recalls_begin, recalls_follow, recalls_rise,
};
pub use nfs_rpc::Recall;
pub use nfs_state::{
    Entry, JOURNAL_LIMIT, Journal, LEASE_MAX, LEASE_MIN, Moment, NoRandomSeed, STATE_LIMIT, Seeds,
    limits_of_the_state,
};
