//! The service of `once`: a core that one connection has for itself.

ghost use Rattle.std.specs.Prelude.{◌≡◌, ◌↔◌, ◌≤◌, ◌^◌, ◌∷◌, [], IfErr, IfNone, IfOk, IfSome, IsFalse, None, Ok, OnErr, ℕ, refl};
ghost use Rattle.nfs_core.specs.Events.{EndsNoClient, IsForgotten, IsNotEntered, IsNotForgottenFor, NoneIsIdle, entry_by};
ghost use Rattle.nfs_core.specs.Server.{AreAlike, Enters, IsLawful};
ghost use Rattle.nfs_owners.specs.Registry.{is_live};
ghost use Rattle.nfs_server.specs.Leases.{IsLent};
ghost use Rattle.nfs_leases.specs.PlainBook.{Happens};
ghost use Rattle.nfs_leases.specs.Sweeps.{Sweeps, leased_server};

use crate::Service;
use nfs_core::{Core, CoreError, Event, Moment, Recall};
use nfs_leases::{LeasedCore, PlainLeases, Swept, renewal_answer, renewed_client};
use nfs_state::Request;
use nfs_tree::Profile;
use nfs_xdr::{ClientId, OpResult};
use std::alloc::{AllocError, Global};
use std::marker::Model;

/// A core that serves one connection after another, with the leases of its clients.
#[derive(Drop)]
pub struct Lent {
    leased: LeasedCore<PlainLeases>,
}

impl Model for Lent {
    ghost use Rattle.nfs_server.specs.Leases.{IsLent, LentCore};

    ghost Value = { LentCore };

    ghost view = { λ l. record { core = l.leased.core; book = l.leased.book } };

    ghost invariant = { λ l. IsLent l.leased.core l.leased.book };
}

impl Lent {
    /// A service over a core that no client is live in. It fails where memory is refused for the leases.
    pub fn new(alloc: Global, core: Core) -> Result<Lent, AllocError>
        requires { (number : ℕ) → IsFalse (is_live number core.stored.clients) }
        ensures core { IfOk result (λ lent. lent.core ≡ core) }
        ensures leases { IfOk result (λ lent. IsLent core lent.book) }
    {
        let book = PlainLeases::new(alloc, core.journal().lease())?;
        Ok(Lent {
            leased: LeasedCore::new(core, book),
        })
    }

    /// The core, to be looked at.
    pub fn core(&self) -> &Core
        ensures { result.now ≡ self.now.core }
    {
        &self.leased.core
    }

    /// Returns the core.
    pub fn into_core(self) -> Core
        ensures { result ≡ self.core }
    {
        let Lent { leased } = self;
        let (core, _) = leased.into_parts();
        core
    }

    /// Removes each client whose lease is over at this moment, with all that it has. Then it revokes the delegations
    /// that are due, and then forgets the open owners that may be forgotten, until none is left of both, or there is no
    /// room for an entry.
    pub fn sweep(&mut self, now: Moment) -> Swept
        ensures sweeps { Sweeps Happens now (leased_server self.old.core self.old.book) result
            (leased_server self.new.core self.new.book) }
    {
        self.leased.sweep(now)
    }

    /// Enters an event that ends no client, and returns the entry's number. Fails where the core does, and then nothing
    /// changes but room, of which there isn't less.
    pub fn enter(&mut self, event: Event) -> Result<u32, CoreError>
        requires { EndsNoClient event }
        ensures enters { IfOk result (Enters self.old.core self.new.core (entry_by event)) }
        ensures error { IfErr result (IsNotEntered self.old.core event) }
        ensures same { OnErr result (AreAlike self.old.core self.new.core) }
        ensures room { OnErr result (self.old.core.room ≤ self.new.core.room) }
        ensures recalls { self.new.core.recalls ≡ self.old.core.recalls }
        ensures book { self.new.book ≡ self.old.book }
        ensures lawful { IsLawful self.new.core }
    {
        self.leased.enter(event)
    }

    /// Forgets the next open owner that may be forgotten at this moment, if one may, and returns the entry's number.
    pub fn forget(&mut self, now: Moment) -> Result<Option<u32>, CoreError>
        ensures forgotten { IfOk result (IsForgotten self.old.core self.new.core now) }
        ensures none { result ≡ Ok None ↔ NoneIsIdle self.old.core now }
        ensures error { IfErr result (IsNotForgottenFor self.old.core now) }
        ensures same { OnErr result (AreAlike self.old.core self.new.core) }
        ensures room { OnErr result (self.old.core.room ≤ self.new.core.room) }
        ensures recalls { self.new.core.recalls ≡ self.old.core.recalls }
        ensures book { self.new.book ≡ self.old.book }
        ensures lawful { IsLawful self.new.core }
    {
        self.leased.forget(now)
    }

    /// Takes out the first of the recalls that are pending. It makes no entry.
    pub fn take_recall(&mut self) -> Option<Recall>
        ensures others { self.new.core ≡ record self.old.core {
          recalls = self.new.core.recalls;
        } }
        ensures none { IfNone result ((self.old.core.recalls.pending ≡ [])
            × (self.new.core ≡ self.old.core)) }
        ensures first { IfSome result (λ recall.
            self.old.core.recalls.pending ≡ recall ∷ self.new.core.recalls.pending) }
        ensures book { self.new.book ≡ self.old.book }
    {
        self.leased.take_recall()
    }
}

impl Service for Lent {
    ghost use Rattle.nfs_server.specs.LentAnswers.{IsGiven};
    ghost use Rattle.nfs_server.specs.Serves.{served_by};

    ghost gives = { IsGiven };

    ghost alike = { λ old new. AreAlike old.core new.core × (new.book ≡ old.book) };

    ghost alike_same = { λ l. ((refl, refl, refl), refl) };

    ghost serves = { λ l. served_by l.core.journal };

    ghost room = { λ l. 2 ^ 64 };

    fn epoch(&self) -> u32 {
        self.leased.core.journal().epoch()
    }

    fn profile(&self) -> Profile {
        self.leased.core.journal().policy().profile
    }

    // Neither a core nor its leases need room before they are asked, so there is always enough.
    fn room(&mut self, _questions: usize) -> Result<(), AllocError> {
        Ok(())
    }

    // Nobody else asks a core that is lent.
    fn begin_batch(&mut self) {}

    fn end_batch(&mut self) {}

    fn call(&mut self, request: Request) -> OpResult {
        let client = renewed_client(&request.op, self.leased.core.journal().epoch());
        self.leased.renew(client, request.moment);
        let (answer, _) = self.leased.call(request);
        answer
    }

    fn renew(&mut self, moment: Moment, client: ClientId) -> OpResult {
        let client = client.number_in(self.leased.core.journal().epoch());
        let is_open = self.leased.renew(client, moment);
        let answer = OpResult::Renew(renewal_answer(is_open));
        answer.fits();
        answer
    }
}
