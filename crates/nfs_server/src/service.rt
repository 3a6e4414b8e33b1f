//! The trait of what answers operations on the state: a core of its own, or a core that threads share.

ghost use Rattle.std.specs.Prelude.{◌≡◌, ◌+◌, ◌<◌, ◌≤◌, ℕ, IsTrue, IfSome, OnOk, length};
ghost use Rattle.nfs_xdr.specs.Op.{opnum_of};
ghost use Rattle.nfs_server.specs.Asking.{Operation, Question, Renewal};
ghost use Rattle.nfs_tree.specs.Exports.{Exported};
ghost use Rattle.nfs_tree.specs.Profiles.{has_entry};
ghost use Rattle.nfs_tree.specs.Tree.{node_count};
ghost use Rattle.nfs_xdr.specs.declared.op_result.OpResult.{OpResult};
ghost use Rattle.nfs_xdr.specs.OpResult.{op_result};
ghost use Rattle.nfs_xdr.specs.Opnum.{answer_limit};
ghost use Rattle.nfs_xdr.specs.declared.opnum.Opnum.TheVariants.{Renew};

use nfs_core::Moment;
use nfs_state::Request;
use nfs_tree::Profile;
use nfs_xdr::{ClientId, OpResult};
use std::alloc::AllocError;

/// Answers the operations that need the state or the leases.
pub trait Service {
    /// How the service may answer a question: its state before, the question, the answer, and its state after.
    ghost gives: { Self → Question → OpResult → Self → Type 0 };
    /// States of the service that differ at most in their room: the service answers alike in both.
    ghost alike: { Self → Self → Type 0 };
    /// What the service serves: the nodes of the tree, its profile, and the number of the server's run.
    ghost serves: { Self → Exported };
    /// For how many questions the service has room.
    ghost room: { Self → ℕ };

    /// The number of the server's run.
    fn epoch(&self) -> u32
        ensures { result ≡ (serves self.now).epoch };

    /// The profile of the tree that is served.
    fn profile(&self) -> Profile
        ensures { result ≡ (serves self.now).profile };

    /// Makes room for what the service needs to answer so many questions, before they are asked.
    fn room(&mut self, questions: usize) -> Result<(), AllocError>
        ensures room { OnOk result (questions ≤ room self.new) }
        ensures alike { alike self.old self.new }
        ensures serves { serves self.new ≡ serves self.old };

    /// Begins to answer several calls in a row. A service that others share may keep them from coming in between until
    /// `end_batch`.
    fn begin_batch(&mut self)
        ensures { self.new ≡ self.old };

    /// Ends what `begin_batch` began.
    fn end_batch(&mut self)
        ensures { self.new ≡ self.old };

    /// Answers a request for an operation that has an entry in the journal, with a current filehandle of the tree.
    fn call(&mut self, request: Request) -> OpResult
        requires room { 0 < room self.old }
        requires entry { IsTrue (has_entry (serves self.old).profile request.op) }
        requires node { IfSome request.filehandle (λ node. node < node_count (serves self.old).nodes) }
        ensures gives { gives self.old (Operation request) result self.new }
        ensures room { room self.old ≤ room self.new + 1 }
        ensures serves { serves self.new ≡ serves self.old }
        ensures fits { length (op_result.encoding result) ≤ answer_limit (opnum_of request.op) }
        ensures form { op_result.Fits result };

    /// Answers RENEW: renews the lease of the client with this clientid.
    fn renew(&mut self, moment: Moment, client: ClientId) -> OpResult
        ensures gives { gives self.old (Renewal moment client) result self.new }
        ensures room { room self.old ≤ room self.new + 1 }
        ensures serves { serves self.new ≡ serves self.old }
        ensures fits { length (op_result.encoding result) ≤ answer_limit Renew }
        ensures form { op_result.Fits result };

    /// Each state is alike to itself.
    ghost alike_same: { (s : Self) → alike s s };
}
