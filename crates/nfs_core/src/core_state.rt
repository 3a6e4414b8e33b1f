//! The core: the one value through which all changes of the state go.

ghost use Rattle.std.specs.Prelude.{◌≡◌, ◌↔◌, ◌≤◌, ◌<◌, ◌+◌, [], ◌∷◌, None, Ok, IfErr, IfNone, IfOk, IfSome, OnErr, OnOk, IsErrOf, IsTrue, length};
ghost use Rattle.std.specs.Option.{option_copied};
ghost use Rattle.nfs_core.specs.Callbacks.{callback_of, has_delegation};
ghost use Rattle.nfs_core.specs.Entered.{Answers};
ghost use Rattle.nfs_core.specs.Events.{IsForgotten, IsForgottenFrom, IsNotEntered, IsNotForgottenFor, IsNotRevokedFor, IsRevoked, IsWithoutRoom, MayHappen, NoneIsDue, NoneIsIdle, NoneIsIdleBefore, entry_by, revoke_of};
ghost use Rattle.nfs_core.specs.Following.{MayFollow};
ghost use Rattle.nfs_core.specs.LiveClients.{AreNumbered, AreOfOneRun};
ghost use Rattle.nfs_core.specs.Recalls.{AreLeftOf, no_recalls};
ghost use Rattle.nfs_core.specs.Safe.{HaveFewBytes, IsSafe, KeepRequests};
ghost use Rattle.nfs_core.specs.Server.{AreAlike, Enters, IsLawful};
ghost use Rattle.nfs_core.specs.Step.{HasNoStep};
ghost use Rattle.nfs_core.specs.declared.event.Event.TheVariants as events;
ghost use Rattle.nfs_owners.specs.LiveClients.{IsNextLive, IsNextUnknown, replaced_by};
ghost use Rattle.nfs_owners.specs.Registry.{is_live};
ghost use Rattle.nfs_state.specs.Entries.{IsFilehandle};
ghost use Rattle.nfs_state.specs.Kept.{Agrees};
ghost use Rattle.nfs_state.specs.Stored.{empty_store, meaning};
ghost use Rattle.nfs_state.specs.declared.entry.Entry.TheVariants as entries;
ghost use Rattle.nfs_tree.specs.Profiles.{has_entry};
ghost use Rattle.nfs_tree.specs.Tree.{IsTree};
ghost use Rattle.nfs_xdr.specs.Op.{opnum_of};
ghost use Rattle.nfs_xdr.specs.OpResult.{op_result};
ghost use Rattle.nfs_xdr.specs.Opnum.{answer_limit};

use crate::answering::enter_decided;
use crate::entering::enter_event;
use crate::following::{decide_next, follow};
use crate::forgetting::forget_next;
use crate::holdings::Holdings;
use crate::laws::{lawful_is_safe, recalls_follow};
use crate::pending_recalls::PendingRecalls;
use crate::revoking::revoke_next;
use crate::{CoreError, Entered, Event, FollowError, Forgotten};
use nfs_owners::ClientState;
use nfs_rpc::Recall;
use nfs_rules::next_due;
use nfs_state::{
    Entry, JOURNAL_LIMIT, Journal, LEASE_MAX, LEASE_MIN, Moment, Request, Seeds, Store, Tables,
};
use nfs_tree::{Policy, Tree};
use nfs_xdr::{Callback, ClientId, OpResult, Refusal, Stateid};
use std::alloc::Global;
use std::marker::Model;

/// The state of a server (RFC 7530, section 9), and the journal of the changes that led to it.
pub struct Core {
    alloc: Global,
    held: Holdings,
}

impl Model for Core {
    ghost use Rattle.nfs_core.specs.Lawful.{Lawful};
    ghost use Rattle.nfs_core.specs.Recalls.{AreLeftOf, left_of};
    ghost use Rattle.nfs_core.specs.Server.{Server, server_of};
    ghost use Rattle.nfs_state.specs.Room.{state_of};
    ghost use Rattle.nfs_state.specs.Store.{OwnersAgree};

    ghost Value = { Server };

    ghost view = { λ c. server_of c.held };

    ghost invariant = { λ c.
        Lawful c.held.store.journal.history (state_of c.held.store.tables)
        × OwnersAgree c.held.store
        × AreLeftOf c.held.store.journal.history (left_of c.held.recalls) };
}

// By hand, so that it is one step to let a core go, and not one for each part of its tables.
impl Drop for Core {
    fn drop(self) {
        let Core { alloc: _, held } = self;
        drop(held);
    }
}

impl Core {
    /// A server with the files of this tree, to which no client has come. `lease` is in seconds, and `epoch` is the
    /// number of the server's run. What is stored is found by hashes that are keyed by the seeds. Fails if memory runs
    /// out while the tree is copied.
    pub fn new(
        alloc: Global,
        tree: &Tree,
        lease: u32,
        epoch: u32,
        policy: Policy,
        seeds: Seeds,
    ) -> Result<Core, CoreError>
        requires { (LEASE_MIN ≤ lease) × (lease ≤ LEASE_MAX) }
        ensures journal { IfOk result (λ core. core.journal ≡ record {
          nodes = tree.now.nodes;
          epoch = epoch;
          lease = lease;
          policy = policy;
          entries = [];
        }) }
        ensures stored { IfOk result (λ core. core.stored ≡ empty_store tree.now.nodes) }
        ensures recalls { IfOk result (λ core. core.recalls ≡ no_recalls) }
        ensures lawful { IfOk result (λ core. IsLawful core) }
        ensures error { IfErr result (λ e. e ≡ CoreError.Memory) }
    {
        // The tables come last: nothing has to let them go then.
        let Ok(copy) = tree.clone() else {
            return Err(CoreError::Memory);
        };
        let tables = Tables::of_tree(alloc, tree, seeds)?;
        let journal = Journal::new(alloc, copy, lease, epoch, policy);
        let store = Store { tables, journal };
        let recalls = PendingRecalls::new(alloc);
        Ok(Core {
            alloc,
            held: Holdings { store, recalls },
        })
    }

    /// Answers a request as `apply` does; its operation goes into the journal without a copy. Returns what came of it:
    /// the entry's number, and which client became live by it, or is live no longer.
    pub fn answer(&mut self, request: Request) -> (OpResult, Option<Entered>)
        requires entry { IsTrue (has_entry self.old.journal.policy.profile request.op) }
        requires node { IsFilehandle self.old.journal request.filehandle }
        ensures answers { Answers self.old self.new request result.0 result.1 }
        ensures room { IfNone result.1 (self.old.room ≤ self.new.room) }
        ensures short { length (op_result.encoding result.0)
            ≤ answer_limit (opnum_of request.op) }
        ensures form { op_result.Fits result.0 }
        ensures lawful { IsLawful self.new }
    {
        lawful_is_safe();
        recalls_follow();
        let opnum = request.op.opnum();
        let held = &mut self.held;
        match decide_next(self.alloc, &held.store, &request) {
            Ok(decision) => match enter_decided(self.alloc, held, request, decision) {
                Ok((answer, entered)) => {
                    answer.fits();
                    (answer, Some(entered))
                }
                Err(_) => (opnum.refusal(Refusal::Resource), None),
            },
            Err(_) => {
                drop(request);
                (opnum.refusal(Refusal::Resource), None)
            }
        }
    }

    /// Bounds the memory of the journal's entries: from now on a call that would bring their count above so many bytes
    /// is refused, as where memory is. No other entry is.
    pub fn set_memory_limit(&mut self, limit: u64)
        ensures { self.new ≡ self.old }
    {
        self.held.store.journal.set_memory_limit(limit);
    }

    /// Makes room for one more entry, so that `enter` takes no memory where it comes next.
    pub fn prepare(&mut self) -> Result<(), CoreError>
        ensures same { AreAlike self.old self.new }
        ensures room { OnOk result ((0 < self.new.room)
            × (length self.new.journal.entries < JOURNAL_LIMIT)) }
        ensures grows { self.old.room ≤ self.new.room }
        ensures error { IfErr result (IsWithoutRoom self.old) }
        ensures lawful { IsLawful self.new }
    {
        if self.held.store.journal.is_full() {
            return Err(CoreError::Full);
        }
        Ok(self.held.store.journal.reserve()?)
    }

    /// Enters an event in the journal, and returns the entry's number. Fails, and changes nothing but room, of which
    /// there isn't less, for the first of these reasons that there is: the event's client isn't live (NotLive), its
    /// time hasn't come (NotDue), the journal is full, or memory ran out.
    pub fn enter(&mut self, event: Event) -> Result<u32, CoreError>
        ensures enters { IfOk result (Enters self.old self.new (entry_by event)) }
        ensures recalls { self.new.recalls ≡ self.old.recalls }
        ensures error { IfErr result (IsNotEntered self.old event) }
        ensures same { OnErr result (AreAlike self.old self.new) }
        ensures room { OnErr result (self.old.room ≤ self.new.room) }
        ensures lawful { IsLawful self.new }
    {
        lawful_is_safe();
        recalls_follow();
        let held = &mut self.held;
        enter_event(self.alloc, held, event)
    }

    /// The delegation with the least number of those that are due at `now`: called back more than a lease before, and
    /// not given back. None where none is due.
    pub fn due(&self, now: Moment) -> Option<u32>
        ensures due { IfSome result (λ number.
            MayHappen self.now (events.Revoke (revoke_of number now))) }
        ensures none { result ≡ None ↔ NoneIsDue self.now now }
    {
        let due = next_due(&self.held.store, now)?;
        Some(due.state.number)
    }

    /// Takes away the delegation that is due at `now`, if one is, enters that in the journal, and returns the
    /// delegation's number. Fails only where one is due, with Full before Memory, and so changes nothing but room, of
    /// which there isn't less.
    pub fn revoke(&mut self, now: Moment) -> Result<Option<u32>, CoreError>
        ensures revoked { IfOk result (IsRevoked self.old self.new now) }
        ensures recalls { self.new.recalls ≡ self.old.recalls }
        ensures none { result ≡ Ok None ↔ NoneIsDue self.old now }
        ensures error { IfErr result (IsNotRevokedFor self.old now) }
        ensures same { OnErr result (AreAlike self.old self.new) }
        ensures room { OnErr result (self.old.room ≤ self.new.room) }
        ensures lawful { IsLawful self.new }
    {
        lawful_is_safe();
        recalls_follow();
        let held = &mut self.held;
        revoke_next(self.alloc, held, now)
    }

    /// Forgets the open owner that may be forgotten at `now`, if one may: it has no open, and a lease has passed since
    /// its kept request. Of those that may be it is the one that the least entry recorded. Enters that in the journal,
    /// and returns the entry's number. Fails only where one may be forgotten, with Full before Memory, and so changes
    /// nothing but room, of which there isn't less.
    pub fn forget(&mut self, now: Moment) -> Result<Option<u32>, CoreError>
        ensures forgotten { IfOk result (IsForgotten self.old self.new now) }
        ensures recalls { self.new.recalls ≡ self.old.recalls }
        ensures none { result ≡ Ok None ↔ NoneIsIdle self.old now }
        ensures error { IfErr result (IsNotForgottenFor self.old now) }
        ensures same { OnErr result (AreAlike self.old self.new) }
        ensures room { OnErr result (self.old.room ≤ self.new.room) }
        ensures lawful { IsLawful self.new }
    {
        match self.forget_from(0, now) {
            Ok(Some(forgotten)) => Ok(Some(forgotten.number)),
            Ok(None) => Ok(None),
            Err(error) => Err(error),
        }
    }

    /// Forgets an owner as `forget` does, if no owner may be forgotten that an entry before this one recorded. Tells as
    /// well which entry had recorded the owner: whoever forgets all goes on from that entry, and looks at each owner
    /// once.
    pub fn forget_from(&mut self, entry: u32, now: Moment) -> Result<Option<Forgotten>, CoreError>
        requires { NoneIsIdleBefore entry self.old now }
        ensures forgotten { IfOk result (IsForgottenFrom self.old self.new now) }
        ensures recalls { self.new.recalls ≡ self.old.recalls }
        ensures none { result ≡ Ok None ↔ NoneIsIdle self.old now }
        ensures error { IfErr result (IsNotForgottenFor self.old now) }
        ensures same { OnErr result (AreAlike self.old self.new) }
        ensures room { OnErr result (self.old.room ≤ self.new.room) }
        ensures lawful { IsLawful self.new }
    {
        lawful_is_safe();
        recalls_follow();
        let held = &mut self.held;
        forget_next(self.alloc, held, entry, now)
    }

    /// Enters an entry that is handed in, such as one of another server's journal, if it may come next: it is judged as
    /// `apply` and `enter` would make it. Returns the entry's number. Fails with NotNext only
    /// if the entry may not come next, and with Memory only if it may as far as it is judged without a call's answer.
    /// What fails changes nothing but room, of which there isn't less.
    pub fn follow(&mut self, entry: Entry) -> Result<u32, FollowError>
        ensures entered { IfOk result (Enters self.old self.new entry) }
        ensures not_next { IsErrOf result FollowError.NotNext
            → HasNoStep self.old.journal (meaning self.old.stored) entry }
        ensures memory { IsErrOf result FollowError.Memory → MayFollow self.old entry }
        ensures same { OnErr result (AreAlike self.old self.new) }
        ensures room { OnErr result (self.old.room ≤ self.new.room) }
        ensures lawful { IsLawful self.new }
    {
        lawful_is_safe();
        recalls_follow();
        let held = &mut self.held;
        follow(self.alloc, held, entry)
    }

    /// Whether the client with this number is live: whether it has a confirmed record.
    pub fn live(&self, client: u32) -> bool
        ensures { result ≡ is_live client self.now.stored.clients }
    {
        self.held.store.tables.clients.live(client)
    }

    /// The least number above this one that a live client has, if there is one.
    pub fn next_live(&self, after: u32) -> Option<u32>
        ensures next { IsNextLive after self.now.stored.clients result }
        ensures numbered { AreNumbered self.now.stored.clients }
        ensures run { AreOfOneRun self.now.journal (meaning self.now.stored) }
        ensures lawful { IsLawful self.now }
    {
        lawful_is_safe();
        self.held.store.tables.clients.next_live(after)
    }

    /// How many clients are live: each has one confirmed record.
    pub fn count_live(&self) -> usize
        ensures { result ≡ length self.now.stored.clients.confirmed }
    {
        self.held.store.tables.clients.count_live()
    }

    /// What the record of a live client has of whose path to its callbacks nothing is known: of the client with the
    /// least number above this one, if there is one.
    pub fn probe(&self, after: u32) -> Option<&ClientState>
        ensures { IsNextUnknown after self.now.stored.clients (option_copied result) }
    {
        self.held.store.tables.clients.next_unknown(after)
    }

    /// How the live client with this number is called back, if there is one.
    pub fn callback(&self, client: u32) -> Option<&Callback>
        ensures { option_copied result ≡ callback_of client self.now }
    {
        let store = &self.held.store;
        let client = ClientId {
            epoch: store.journal.epoch(),
            number: client,
        };
        Some(store.tables.clients.of(client)?.callback.as_callback())
    }

    /// Whether a client has the delegation that the stateid names, no matter its seqid.
    pub fn has_delegation(&self, stateid: Stateid) -> bool
        ensures { result ≡ has_delegation stateid self.now }
    {
        self.held
            .store
            .tables
            .opens
            .find_delegation(stateid)
            .is_some()
    }

    /// The number of the live client that the client with this number replaces once it is confirmed.
    pub fn replaced_by(&self, client: u32) -> Option<u32>
        ensures { result ≡ replaced_by client self.now.stored.clients }
    {
        self.held.store.tables.clients.replaced_by(client)
    }

    /// The recalls that the journal made and that nobody took yet, in the order of its entries, and within an entry by
    /// the numbers of the delegations.
    pub fn pending(&self) -> &[Recall]
        ensures pending { result.now ≡ self.now.recalls.pending }
        ensures recalls { AreLeftOf self.now.journal self.now.recalls }
    {
        self.held.recalls.pending()
    }

    /// Takes out the first of the recalls that are pending. It takes no memory, and makes no entry.
    pub fn take_recall(&mut self) -> Option<Recall>
        ensures others { self.new ≡ record self.old { recalls = self.new.recalls } }
        ensures none { IfNone result
            ((self.old.recalls.pending ≡ []) × (self.new ≡ self.old)) }
        ensures first { IfSome result (λ recall.
            self.old.recalls.pending ≡ recall ∷ self.new.recalls.pending) }
        ensures taken { IfSome result (λ recall.
            self.new.recalls.taken ≡ self.old.recalls.taken + 1) }
    {
        self.held.recalls.take()
    }

    /// The journal of the changes that led to the state.
    pub fn journal(&self) -> &Journal
        ensures journal { result.now.history ≡ self.now.journal }
        ensures kept { Agrees self.now.journal self.now.stored.owners }
        ensures lawful { IsLawful self.now }
        ensures safe { IsSafe (meaning self.now.stored) }
        ensures counted { KeepRequests self.now.journal (meaning self.now.stored) }
        ensures tree { IsTree self.now.journal.nodes }
        ensures bytes { HaveFewBytes (meaning self.now.stored).files }
    {
        lawful_is_safe();
        let journal = &self.held.store.journal;
        journal.tree().nodes_are_a_tree();
        journal
    }
}
