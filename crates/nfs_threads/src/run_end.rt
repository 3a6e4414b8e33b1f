//! What a run leaves: the core, what each worker served, and the receipts.

use crate::Shift;
use nfs_core::Core;
use nfs_shared::Receipt;

/// What a run of connections leaves.
#[derive(Drop)]
pub struct RunEnd {
    /// The core that they shared, with its journal.
    pub core: Core,
    /// What each worker served, in the order of their seats.
    pub shifts: Vec<Shift>,
    /// The receipts of each worker, at the same place, for the entries that its calls made, in the order of the calls.
    pub receipts: Vec<Vec<Receipt>>,
    /// Whether one thread swept leases meanwhile, and another one called clients back. What no thread could be made for
    /// wasn't done.
    pub has_helpers: bool,
}
