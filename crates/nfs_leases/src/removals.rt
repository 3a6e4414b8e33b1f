//! What a part of a sweep removed, and why it stopped.

use nfs_core::CoreError;

/// What came of the delegations that were due, or of the open owners that could be forgotten.
#[derive(Clone, Copy)]
pub(crate) struct Removals {
    /// How many delegations or open owners were removed.
    pub(crate) count: u32,
    /// Why a delegation or an open owner stays, if one does: the journal had no room for an entry, or memory ran out.
    pub(crate) stopped: Option<CoreError>,
}
