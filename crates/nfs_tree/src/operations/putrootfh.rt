//! PUTROOTFH, with which a client begins that knows no filehandle.

ghost use Rattle.std.specs.Prelude.{◌≡◌};
ghost use Rattle.nfs_tree.specs.Filehandles.{AreNodes};
ghost use Rattle.nfs_tree.specs.operations.Putrootfh.{putrootfh};

use crate::{Filehandles, ROOT, Tree};
use nfs_xdr::{Answer, OpResult, Refusal};

impl Filehandles {
    /// PUTROOTFH (RFC 7530, section 16.22): the filehandle of the root becomes the current one.
    pub(crate) fn putrootfh(&mut self, tree: &Tree) -> OpResult
        requires nodes { AreNodes tree.now self.old }
        ensures effect { record { answer = result; after = self.new } ≡ putrootfh self.old }
        ensures nodes { AreNodes tree.now self.new }
    {
        self.current = Some(ROOT);
        OpResult::Putrootfh(Answer::Done(()))
    }
}
