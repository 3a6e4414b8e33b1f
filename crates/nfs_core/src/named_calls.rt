//! What a server does by well-known names: applies an operation, expires a client, marks a path. Each is one call over
//! those that the program makes in its place.

ghost use Rattle.std.specs.Prelude.{◌≡◌, ◌≤◌, IfErr, IfNone, IfOk, IsTrue, None, OnErr, length};
ghost use Rattle.nfs_core.specs.Events.{IsNotEntered, expire_of, path_of};
ghost use Rattle.nfs_core.specs.Server.{Applies, AreAlike, Enters, IsLawful};
ghost use Rattle.nfs_core.specs.declared.event.Event.TheVariants as events;
ghost use Rattle.nfs_state.specs.Entries.{IsFilehandle, request_of, resource};
ghost use Rattle.nfs_state.specs.declared.entry.Entry.TheVariants as entries;
ghost use Rattle.nfs_tree.specs.Profiles.{has_entry};
ghost use Rattle.nfs_xdr.specs.Op.{opnum_of};
ghost use Rattle.nfs_xdr.specs.OpResult.{op_result};
ghost use Rattle.nfs_xdr.specs.Opnum.{answer_limit};

use crate::{Core, CoreError, Event};
use nfs_state::{Expire, Moment, Path, Request};
use nfs_xdr::{Op, OpResult, Principal, Refusal};

impl Core {
    /// Answers an operation that has an entry in the journal (`Profile::has_entry`), and returns the entry's number.
    /// Without a number the answer is NFS4ERR_RESOURCE and nothing has changed but room, of which there isn't less: the
    /// journal is full, memory ran out, or a limit would be exceeded. `filehandle` has to be a node of the tree.
    pub fn apply(
        &mut self,
        moment: Moment,
        principal: Principal,
        op: &Op,
        filehandle: Option<u32>,
    ) -> (OpResult, Option<u32>)
        requires entry { IsTrue (has_entry self.old.journal.policy.profile op.now) }
        requires node { IsFilehandle self.old.journal filehandle }
        ensures applies { Applies self.old self.new (request_of moment principal op.now filehandle)
            result.0 result.1 }
        ensures room { IfNone result.1 (self.old.room ≤ self.new.room) }
        ensures short { length (op_result.encoding result.0) ≤ answer_limit (opnum_of op.now) }
        ensures form { op_result.Fits result.0 }
        ensures lawful { IsLawful self.new }
    {
        match Request::of_copy(moment, principal, op, filehandle) {
            Ok(request) => self.answer_by_number(request),
            Err(_) => (self.refusal(op), None),
        }
    }

    // Answers a request, and returns its entry's number.
    fn answer_by_number(&mut self, request: Request) -> (OpResult, Option<u32>)
        requires entry { IsTrue (has_entry self.old.journal.policy.profile request.op) }
        requires node { IsFilehandle self.old.journal request.filehandle }
        ensures applies { Applies self.old self.new request result.0 result.1 }
        ensures room { IfNone result.1 (self.old.room ≤ self.new.room) }
        ensures short { length (op_result.encoding result.0)
            ≤ answer_limit (opnum_of request.op) }
        ensures form { op_result.Fits result.0 }
        ensures lawful { IsLawful self.new }
    {
        let (answer, entered) = self.answer(request);
        match entered {
            Some(entered) => (answer, Some(entered.number)),
            None => (answer, None),
        }
    }

    // The answer to an operation for which there is no memory.
    fn refusal(&self, op: &Op) -> OpResult
        ensures answer { result ≡ resource op.now }
        ensures short { length (op_result.encoding result) ≤ answer_limit (opnum_of op.now) }
        ensures form { op_result.Fits result }
        ensures lawful { IsLawful self.now }
    {
        // For its clause alone: the state is lawful as it is.
        self.journal();
        op.opnum().refusal(Refusal::Resource)
    }

    /// Removes the client with this number, whose lease was renewed last at `seen` and has run out at `now`, with all
    /// that it has, as `enter` does.
    pub fn expire(&mut self, client: u32, seen: Moment, now: Moment) -> Result<u32, CoreError>
        ensures expires { IfOk result (Enters self.old self.new
            (entries.Expire (expire_of client seen now))) }
        ensures recalls { self.new.recalls ≡ self.old.recalls }
        ensures error { IfErr result
            (IsNotEntered self.old (events.Expire (expire_of client seen now))) }
        ensures same { OnErr result (AreAlike self.old self.new) }
        ensures room { OnErr result (self.old.room ≤ self.new.room) }
        ensures lawful { IsLawful self.new }
    {
        self.enter(Event::Expire(Expire { client, seen, now }))
    }

    /// Marks whether callbacks reach the live client with this number, as `enter` does.
    pub fn mark_path(&mut self, client: u32, up: bool) -> Result<u32, CoreError>
        ensures marks { IfOk result (Enters self.old self.new (entries.Path (path_of client up))) }
        ensures recalls { self.new.recalls ≡ self.old.recalls }
        ensures error { IfErr result
            (IsNotEntered self.old (events.Path (path_of client up))) }
        ensures same { OnErr result (AreAlike self.old self.new) }
        ensures room { OnErr result (self.old.room ≤ self.new.room) }
        ensures lawful { IsLawful self.new }
    {
        self.enter(Event::Path(Path { client, up }))
    }
}
