//! What a call's caller learns of the entry that the call made.

use nfs_owners::LiveChange;

/// What came of an operation whose entry was made.
#[derive(Clone, Copy, PartialEq, Eq)]
pub struct Entered {
    /// The number of the entry.
    pub number: u32,
    /// Which client became live by the operation, or is live no longer.
    pub live: LiveChange,
}
