//! What an owner's first LOCK of a file brings.

use nfs_forms::LockOwner;
use nfs_ranges::Piece;

/// A lock owner's first lock of a file.
#[derive(Drop)]
pub struct FirstLock {
    pub owner: LockOwner,
    /// The number of the open that it comes under.
    pub open_number: u32,
    pub change: Piece,
}
