//! What an entry means for its owners, as rules decide it.

use nfs_forms::OpenOwner;
use nfs_owners::StateOwner;

/// What an entry of the journal means for the owners (RFC 7530, section 9.1.7).
#[derive(Drop)]
pub enum OwnerChange {
    Nothing,
    /// This owner, which is known, keeps the entry's request and answer.
    Keeps(StateOwner),
    /// Two known owners keep the entry's request and answer: the owner that the request came from, and the lock owner
    /// that it introduces.
    KeepsBoth(StateOwner, StateOwner),
    /// The first, which is known, keeps the entry's request and answer. The second, a lock owner, becomes known and
    /// keeps them as well.
    Introduces(StateOwner, StateOwner),
    /// This open owner becomes known, confirmed or not, and keeps the entry's request and answer.
    Records { owner: OpenOwner, confirmed: bool },
    /// This unconfirmed owner is dropped with its opens, becomes known anew, confirmed or not, and keeps the entry's
    /// request and answer.
    Restarts { owner: OpenOwner, confirmed: bool },
    /// This unconfirmed owner is dropped with its opens.
    Drops(OpenOwner),
}
