//! What a look at a client's lease shows.

use nfs_state::Moment;

/// A client's lease, as a look shows it.
#[derive(Clone, Copy)]
pub enum LeaseState {
    /// The lease wasn't opened, nor was a lease of a later generation of the client's slot.
    Vacant,
    /// The lease is open, and was opened or renewed at this moment and not later.
    Open(Moment),
    /// The lease was closed or retired, or a lease of a later generation of the client's slot was opened.
    Closed,
}
