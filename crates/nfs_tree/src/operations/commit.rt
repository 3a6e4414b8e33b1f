//! COMMIT, which has nothing to do but to return WRITE's verifier.

ghost use Rattle.std.specs.Prelude.{◌≡◌};
ghost use Rattle.nfs_tree.specs.Exports.{export_seen};
ghost use Rattle.nfs_tree.specs.operations.Commit.{commit};

use crate::export::write_verifier;
use crate::{Export, Filehandles};
use nfs_xdr::{Answer, OpResult, Refusal};

impl Filehandles {
    /// COMMIT (RFC 7530, section 16.3): returns the verifier of WRITE, since all that was written to a file is in
    /// stable storage already.
    pub(crate) fn commit(&self, export: &Export<'_>) -> OpResult
        ensures effect { record { answer = result; after = self.now }
            ≡ commit (export_seen export.now) self.now }
    {
        let Some(node) = self.current else {
            return OpResult::Commit(Answer::Refused(Refusal::NoFileHandle));
        };
        if export.tree.is_directory(node) {
            return OpResult::Commit(Answer::Refused(Refusal::IsDir));
        }
        OpResult::Commit(Answer::Done(write_verifier(export.epoch)))
    }
}
