//! Tables and journal together, which the rules read.

use crate::journal::Journal;
use crate::tables::Tables;

/// What a server stores, and the journal of the entries that led to it. Who only reads is handed a `&Store`.
#[derive(Drop)]
pub struct Store {
    pub tables: Tables,
    pub journal: Journal,
}
