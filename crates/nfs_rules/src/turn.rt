//! What an operation's own rule is given: filehandle, passage, and the state that the stateid names.

use crate::passage::Passage;
use crate::stateids::Found;
use nfs_xdr::Refusal;

/// How a request came to the own rule of its operation, and with what.
#[derive(Clone, Copy)]
pub(crate) struct Turn<'a> {
    /// The node of the current filehandle.
    pub node: u32,
    pub passage: Passage,
    /// What the stateid names by which its owner was found; nothing for an OPEN, which has none.
    pub target: Result<Option<Found<'a>>, Refusal>,
}
