//! LOOKUP, which goes from a directory to one of its children.

ghost use Rattle.std.specs.Prelude.{◌≡◌};
ghost use Rattle.nfs_tree.specs.Filehandles.{AreNodes};
ghost use Rattle.nfs_tree.specs.operations.Lookup.{lookup};

use crate::{Filehandles, Tree};
use nfs_xdr::{Answer, OpResult, Refusal};

impl Filehandles {
    /// LOOKUP (RFC 7530, section 16.13): looks up a name in the current directory. The object that it finds becomes the
    /// current one.
    pub(crate) fn lookup(&mut self, tree: &Tree, name: &[u8]) -> OpResult
        requires nodes { AreNodes tree.now self.old }
        ensures effect { record { answer = result; after = self.new }
            ≡ lookup tree.now.nodes self.old name.now }
        ensures nodes { AreNodes tree.now self.new }
    {
        let Some(node) = self.current else {
            return OpResult::Lookup(Answer::Refused(Refusal::NoFileHandle));
        };
        match tree.resolve(node, name) {
            Ok(child) => {
                self.current = Some(child);
                OpResult::Lookup(Answer::Done(()))
            }
            Err(refusal) => OpResult::Lookup(Answer::Refused(refusal)),
        }
    }
}
