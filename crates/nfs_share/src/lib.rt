//! The opens of all files, the share reservations by which one open keeps others out (RFC 7530, sections 9.9 to 9.11),
//! and the delegations (section 10.4).
#![tactic(auto)]

mod changes;
mod count;
mod delegation;
mod delegation_table;
mod file_share;
mod laws;
mod modes;
mod named_calls;
mod numbers;
mod open_state;
mod open_table;
mod opens;
mod owner_hash;
mod share;
mod share_counts;
mod share_error;
mod shares;
mod tally;

pub use delegation::{Delegation, DelegationKind, FileUse};
pub use file_share::FileShare;
pub use laws::{delegations_stay_apart, delegations_stay_single, opens_stay_compatible};
pub use modes::Modes;
pub use open_state::OpenState;
pub use opens::{DelegationFound, DelegationRef, OpenFound, Opens};
pub use share::Share;
pub use share_error::ShareError;
pub use shares::{SHARE_COUNT, Shares};
