//! What the state says of a path of which nothing is known, and why it made no mark.
use nfs_xdr::Callback;
use thiserror::Error;

/// A live client of whose path nothing is known, and its callback.
#[derive(Drop)]
pub struct Probe {
    pub client: u32,
    pub callback: Callback,
}

/// Why a path wasn't marked, though there was reason to.
#[derive(Clone, Copy, Debug, PartialEq, Eq, Error)]
pub enum MarkError {
    /// Memory ran out: the mark may succeed later.
    #[error("no memory")]
    Later,
    /// No mark can be made any more in this run.
    #[error("no room in the journal")]
    Never,
}
