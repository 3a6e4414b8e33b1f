//! The leases of clients: what a lease table promises, a plain lease table, and a core with its lease table. The sweep
//! removes clients whose leases are over, revokes delegations that are due, and forgets open owners that have no open.
#![tactic(auto)]

mod closing;
mod following;
mod forgetting;
mod laws;
mod lease_book;
mod lease_state;
mod leased_core;
mod place;
mod plain_leases;
mod removals;
mod renewal;
mod renewing;
mod revoking;
mod sweeping;
mod swept;
mod visit_case;

pub use closing::Closing;
pub use laws::seen_leases_close;
pub use lease_book::LeaseBook;
pub use lease_state::LeaseState;
pub use leased_core::LeasedCore;
pub use plain_leases::PlainLeases;
pub use renewal::Renewal;
pub use renewing::{renewal_answer, renewed_client};
pub use swept::Swept;
