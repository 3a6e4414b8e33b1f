//! RESTOREFH, which makes the saved filehandle current again.

ghost use Rattle.std.specs.Prelude.{◌≡◌};
ghost use Rattle.nfs_tree.specs.Filehandles.{AreNodes};
ghost use Rattle.nfs_tree.specs.operations.Restorefh.{restorefh};

use crate::{Filehandles, Tree};
use nfs_xdr::{Answer, OpResult, Refusal};

impl Filehandles {
    /// RESTOREFH (RFC 7530, section 16.29): the saved filehandle becomes the current one.
    pub(crate) fn restorefh(&mut self, tree: &Tree) -> OpResult
        requires nodes { AreNodes tree.now self.old }
        ensures effect { record { answer = result; after = self.new } ≡ restorefh self.old }
        ensures nodes { AreNodes tree.now self.new }
    {
        match self.saved {
            Some(node) => {
                self.current = Some(node);
                OpResult::Restorefh(Answer::Done(()))
            }
            None => OpResult::Restorefh(Answer::Refused(Refusal::RestoreFh)),
        }
    }
}
