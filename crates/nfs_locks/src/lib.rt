//! The lock states of all files: which bytes each lock owner holds, and which lock is in the way of another (RFC 7530,
//! sections 9.2, 9.3 and 16.10 to 16.12).
#![tactic(auto)]

mod file_locks;
mod first_lock;
mod laws;
mod lock_state;
mod locks;
mod numbers;
mod owner_hash;
mod owner_order;
mod removals;
mod report;
mod reserves;

pub use first_lock::FirstLock;
pub use laws::{at_most_one_report, locks_stay_compatible};
pub use lock_state::LockState;
pub use locks::{LockFound, Locks};
pub use report::Report;
