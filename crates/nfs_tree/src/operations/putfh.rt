//! PUTFH, which makes a client's filehandle the current one.

ghost use Rattle.std.specs.Prelude.{◌≡◌};
ghost use Rattle.nfs_tree.specs.Filehandles.{AreNodes};
ghost use Rattle.nfs_tree.specs.operations.Putfh.{putfh};

use crate::{Filehandles, Tree};
use nfs_xdr::{Answer, OpResult, Refusal};

impl Filehandles {
    /// PUTFH (RFC 7530, section 16.20): the given filehandle becomes the current one.
    pub(crate) fn putfh(&mut self, tree: &Tree, handle: &[u8]) -> OpResult
        requires nodes { AreNodes tree.now self.old }
        ensures effect { record { answer = result; after = self.new }
            ≡ putfh tree.now.nodes self.old handle.now }
        ensures nodes { AreNodes tree.now self.new }
    {
        match tree.node_of(handle) {
            Some(node) => {
                self.current = Some(node);
                OpResult::Putfh(Answer::Done(()))
            }
            None => OpResult::Putfh(Answer::Refused(Refusal::BadHandle)),
        }
    }
}
