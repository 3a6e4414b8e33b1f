//! A core with a lease table that is changed in step with it, so that exactly the live clients have open leases.

ghost use Rattle.std.specs.Prelude.{◌≡◌, ◌↔◌, ◌≤◌, ◌+◌, [], ◌∷◌, IfErr, IfNone, IfOk, IfSome, IsTrue, None, Ok, OnErr, length};
ghost use Rattle.nfs_core.specs.Entered.{Answers};
ghost use Rattle.nfs_core.specs.Events.{EndsNoClient, IsForgotten, IsNotEntered, IsNotForgottenFor, NoneIsIdle, entry_by};
ghost use Rattle.nfs_core.specs.Server.{AreAlike, Enters, IsLawful};
ghost use Rattle.nfs_leases.specs.BookEvent.{AllHappen};
ghost use Rattle.nfs_leases.specs.BookOf.{IsBookOf, events_entered};
ghost use Rattle.nfs_leases.specs.PlainBook.{has_open_lease, with_renewal};
ghost use Rattle.nfs_leases.specs.Sweeps.{Sweeps, leased_server};
ghost use Rattle.nfs_state.specs.Entries.{IsFilehandle};
ghost use Rattle.nfs_tree.specs.Profiles.{has_entry};
ghost use Rattle.nfs_xdr.specs.Op.{opnum_of};
ghost use Rattle.nfs_xdr.specs.OpResult.{op_result};
ghost use Rattle.nfs_xdr.specs.Opnum.{answer_limit};

use crate::following::follow;
use crate::renewing::renew_lease;
use crate::sweeping::sweep_core;
use crate::{LeaseBook, PlainLeases, Swept};
use nfs_core::{Core, CoreError, Entered, Event, Recall, lawful_is_safe, live_clients_follow};
use nfs_owners::slots_are_apart;
use nfs_state::{Moment, Request};
use nfs_xdr::OpResult;

/// A core with the book of its clients' leases, of which those of the live clients are open.
#[derive(Drop)]
pub struct LeasedCore<B: LeaseBook> {
    pub core: Core,
    pub book: B,
    pub ghost agrees: { IsBookOf (B.is_open book) (B.was_opened book) (B.lease book) core },
}

impl<B: LeaseBook> LeasedCore<B> {
    /// The core, with the book of its clients' leases.
    pub fn new(core: Core, book: B) -> LeasedCore<B>
        requires agrees { IsBookOf (B.is_open book) (B.was_opened book) (B.lease book) core }
        ensures core { result.core ≡ core }
        ensures book { result.book ≡ book }
    {
        LeasedCore { core, book }
    }

    /// Has the core answer a request. The leases follow: where a client becomes live by it, its lease is opened at the
    /// request's moment; where one is replaced, its lease is retired. No lease is renewed: the caller does that,
    /// before.
    pub fn call(&mut self, request: Request) -> (OpResult, Option<Entered>)
        requires entry { IsTrue (has_entry self.old.core.journal.policy.profile request.op) }
        requires node { IsFilehandle self.old.core.journal request.filehandle }
        ensures answers { Answers self.old.core self.new.core request result.0 result.1 }
        ensures short { length (op_result.encoding result.0)
            ≤ answer_limit (opnum_of request.op) }
        ensures form { op_result.Fits result.0 }
        ensures leases { AllHappen B.happens self.old.book (events_entered result.1 request.moment)
            self.new.book }
        ensures lawful { IsLawful self.new.core }
    {
        lawful_is_safe();
        live_clients_follow();
        slots_are_apart();
        cores_are_lawful(&self.core);
        let moment = request.moment;
        let (answer, entered) = self.core.answer(request);
        match entered {
            None => (answer, None),
            Some(made) => {
                follow(&mut self.book, made.live, moment);
                (answer, Some(made))
            }
        }
    }

    /// Goes through the live clients, by rising numbers, and removes each whose lease is over at `now`, from the book
    /// and from the core. Then it revokes the delegations that are due, and then forgets the open owners that may be
    /// forgotten, until none is left of both, or there is no room for an entry.
    pub fn sweep(&mut self, now: Moment) -> Swept
        ensures sweeps { Sweeps B.happens now (leased_server self.old.core self.old.book) result
            (leased_server self.new.core self.new.book) }
        ensures recalls { self.new.core.recalls ≡ self.old.core.recalls }
        ensures lawful { IsLawful self.new.core }
    {
        sweep_core(&mut self.core, &mut self.book, now)
    }

    /// Enters an event that ends no client, and returns the entry's number. Fails where the core does, and then nothing
    /// changes but room, of which there isn't less. The leases stay as they are. A client's end comes by `sweep`, which
    /// closes its lease before it.
    pub fn enter(&mut self, event: Event) -> Result<u32, CoreError>
        requires { EndsNoClient event }
        ensures enters { IfOk result (Enters self.old.core self.new.core (entry_by event)) }
        ensures error { IfErr result (IsNotEntered self.old.core event) }
        ensures same { OnErr result (AreAlike self.old.core self.new.core) }
        ensures room { OnErr result (self.old.core.room ≤ self.new.core.room) }
        ensures recalls { self.new.core.recalls ≡ self.old.core.recalls }
        ensures book { self.new.book ≡ self.old.book }
        ensures lawful { IsLawful self.new.core }
    {
        live_clients_follow();
        cores_are_lawful(&self.core);
        self.core.enter(event)
    }

    /// Forgets the next open owner that may be forgotten at `now`, if one may, as the core does, and returns the
    /// entry's number. The leases stay as they are.
    pub fn forget(&mut self, now: Moment) -> Result<Option<u32>, CoreError>
        ensures forgotten { IfOk result (IsForgotten self.old.core self.new.core now) }
        ensures none { result ≡ Ok None ↔ NoneIsIdle self.old.core now }
        ensures error { IfErr result (IsNotForgottenFor self.old.core now) }
        ensures same { OnErr result (AreAlike self.old.core self.new.core) }
        ensures room { OnErr result (self.old.core.room ≤ self.new.core.room) }
        ensures recalls { self.new.core.recalls ≡ self.old.core.recalls }
        ensures book { self.new.book ≡ self.old.book }
        ensures lawful { IsLawful self.new.core }
    {
        live_clients_follow();
        cores_are_lawful(&self.core);
        self.core.forget(now)
    }

    /// Takes out the first of the recalls that are pending, as the core does. The leases stay as they are.
    pub fn take_recall(&mut self) -> Option<Recall>
        ensures core { self.new.core ≡ record self.old.core {
          recalls = self.new.core.recalls;
        } }
        ensures none { IfNone result ((self.old.core.recalls.pending ≡ [])
            × (self.new.core ≡ self.old.core)) }
        ensures first { IfSome result (λ recall.
            self.old.core.recalls.pending ≡ recall ∷ self.new.core.recalls.pending) }
        ensures taken { IfSome result (λ recall.
            self.new.core.recalls.taken ≡ self.old.core.recalls.taken + 1) }
        ensures book { self.new.book ≡ self.old.book }
    {
        self.core.take_recall()
    }

    /// The core, and the book of its clients' leases.
    pub fn into_parts(self) -> (Core, B)
        ensures core { result.0 ≡ self.core }
        ensures book { result.1 ≡ self.book }
        ensures agrees { IsBookOf (B.is_open result.1) (B.was_opened result.1) (B.lease result.1)
            result.0 }
    {
        let LeasedCore { core, book, .. } = self;
        (core, book)
    }
}

impl LeasedCore<PlainLeases> {
    /// Renews the lease of the client with this number, if there is one. Returns whether the lease is open.
    pub fn renew(&mut self, client: Option<u32>, moment: Moment) -> bool
        ensures core { self.new.core ≡ self.old.core }
        ensures book { self.new.book ≡ with_renewal client moment self.old.book }
        ensures open { result ≡ has_open_lease self.old.book client }
    {
        renew_lease(&mut self.book, client, moment)
    }
}

// The law that the journal of a core leads to what it stores.
fn cores_are_lawful(core: &Core)
    ensures { IsLawful core.now }
{
    let _ = core.journal();
}
