//! What the own rule of an operation with a sequence id decides.

ghost use Rattle.std.specs.Prelude.{◌≡◌};
ghost use Rattle.nfs_xdr.specs.OpResult.{refusal_of};

use nfs_state::Change;
use nfs_xdr::{OpResult, Opnum, Refusal};

/// The answer of a sequenced operation's own rule, and what it changes.
#[derive(Drop)]
pub struct Ruling {
    pub answer: OpResult,
    pub change: Change,
}

impl Ruling {
    /// A refusal of the operation, which changes nothing.
    pub(crate) fn refusal(operation: Opnum, refusal: Refusal) -> Ruling
        ensures { result ≡ record {
          answer = refusal_of operation refusal;
          change = Change.Nothing;
        } }
    {
        Ruling {
            answer: operation.refusal(refusal),
            change: Change::Nothing,
        }
    }
}
