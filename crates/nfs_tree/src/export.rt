//! What is served without state: the tree, its profile, and the number of the server's run.

ghost use Rattle.std.specs.Prelude.{◌≡◌};
ghost use Rattle.nfs_tree.specs.Exports.{verifier_of};

use crate::{Profile, Tree};
use nfs_xdr::Verifier;

/// What the operations on the tree alone work on.
#[derive(Clone, Copy)]
pub struct Export<'a> {
    pub tree: &'a Tree,
    /// For whom the tree is.
    pub profile: Profile,
    /// The number of the server's run.
    pub epoch: u32,
}

/// The verifier of WRITE and COMMIT: the number of the server's run, and four zeros.
#[tactic(auto, unfolding(xdr::specs::Writing::written_number))]
pub fn write_verifier(epoch: u32) -> Verifier
    ensures { result ≡ verifier_of epoch }
{
    let mut verifier = [0; 8];
    verifier[..4].copy_from_slice(&epoch.to_be_bytes());
    Verifier(verifier)
}
