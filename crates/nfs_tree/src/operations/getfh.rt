//! GETFH, which returns the current filehandle.

ghost use Rattle.std.specs.Prelude.{◌≡◌};
ghost use Rattle.nfs_tree.specs.operations.Getfh.{getfh};

use crate::{Filehandles, Tree};
use nfs_xdr::{Answer, FileHandle, OpResult, Refusal};

impl Filehandles {
    /// GETFH (RFC 7530, section 16.8): returns the current filehandle.
    pub(crate) fn getfh(&self, tree: &Tree) -> OpResult
        ensures effect { record { answer = result; after = self.now } ≡ getfh self.now }
    {
        match self.current {
            Some(node) => {
                let alloc = *tree.nodes.allocator();
                let handle = FileHandle::copy_of(alloc, &Tree::handle_of(node)).unwrap();
                OpResult::Getfh(Answer::Done(handle))
            }
            None => OpResult::Getfh(Answer::Refused(Refusal::NoFileHandle)),
        }
    }
}
