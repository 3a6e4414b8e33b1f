//! SAVEFH, which saves the current filehandle for RESTOREFH.

ghost use Rattle.std.specs.Prelude.{◌≡◌};
ghost use Rattle.nfs_tree.specs.Filehandles.{AreNodes};
ghost use Rattle.nfs_tree.specs.operations.Savefh.{savefh};

use crate::{Filehandles, Tree};
use nfs_xdr::{Answer, OpResult, Refusal};

impl Filehandles {
    /// SAVEFH (RFC 7530, section 16.30): the current filehandle is saved.
    pub(crate) fn savefh(&mut self, tree: &Tree) -> OpResult
        requires nodes { AreNodes tree.now self.old }
        ensures effect { record { answer = result; after = self.new } ≡ savefh self.old }
        ensures nodes { AreNodes tree.now self.new }
    {
        match self.current {
            Some(node) => {
                self.saved = Some(node);
                OpResult::Savefh(Answer::Done(()))
            }
            None => OpResult::Savefh(Answer::Refused(Refusal::NoFileHandle)),
        }
    }
}
