//! What a caller asks of the state, and tells it, behind a trait: so the caller needs no lock.
ghost use Rattle.nfs_callbacks.specs.Source.{Answered, HasCallback, HasDelegation, Lives, Marked, Noticed, Probed, Took};

use crate::Fault;
use crate::probe::{MarkError, Probe};
use nfs_rpc::Recall;
use nfs_xdr::Callback;
use std::alloc::AllocError;

/// What a caller asks of the state, and tells it. A client is named by its number.
pub trait CallbackSource {
    /// How the source may answer: its state before, the question with its answer, and its state after.
    ghost answers: { Self → Answered → Self → Type 0 };

    /// The next recall, if there is one. It takes no memory.
    fn take(&mut self) -> Option<Recall>
        ensures { answers self.old (Took result) self.new };

    /// The live client of least number above `after` of whose path nothing is known. It fails only if memory is
    /// refused for the copy of the callback.
    fn probe(&mut self, after: u32) -> Result<Option<Probe>, AllocError>
        ensures { answers self.old (Probed after result) self.new };

    /// Whether the client with this number is live.
    fn is_live(&mut self, client: u32) -> bool
        ensures { answers self.old (Lives client result) self.new };

    /// Whether the client is live, and this is its callback.
    fn has_callback(&mut self, client: u32, callback: &Callback) -> bool
        ensures { answers self.old (HasCallback client callback.now result) self.new };

    /// Whether the client of the recall is live, and the delegation still its own.
    fn has_delegation(&mut self, recall: &Recall) -> bool
        ensures { answers self.old (HasDelegation recall.now result) self.new };

    /// Marks the client's path as up if the call reached the client, and else as down for this reason. If the client
    /// isn't live, or has another callback, nothing is to be marked, which is no error.
    fn mark(
        &mut self,
        client: u32,
        callback: &Callback,
        reached: Result<(), Fault>,
    ) -> Result<(), MarkError>
        ensures { answers self.old (Marked client callback.now reached result) self.new };

    /// Takes notice, once a call, that the client hasn't replied for five seconds.
    fn notice(&mut self, client: u32, callback: &Callback)
        ensures { answers self.old (Noticed client callback.now) self.new };
}
