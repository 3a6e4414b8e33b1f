//! The parts of a core, which its functions change together.

use crate::pending_recalls::PendingRecalls;
use nfs_state::Store;

/// What a core holds: the store, and the recalls of its journal that nobody took yet.
#[derive(Drop)]
pub(crate) struct Holdings {
    pub(crate) store: Store,
    pub(crate) recalls: PendingRecalls,
}
