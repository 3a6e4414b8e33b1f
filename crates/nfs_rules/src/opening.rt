//! What an OPEN opens, after its refusals were ruled out.

use nfs_share::Share;

/// What an OPEN opens, and for which share.
#[derive(Clone, Copy)]
pub struct Opening {
    pub node: u32,
    pub share: Share,
}
