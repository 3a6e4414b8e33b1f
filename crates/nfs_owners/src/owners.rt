//! The owners that the server knows, with the last request and reply of each.

ghost use Rattle.std.specs.Prelude.{◌≡◌, ◌<◌, ◌≤◌, ◌+◌, ◌↔◌, ◌&&◌, Bool, Some, IfSome, true, false, [], find, IsErrOf, IsFalse, IsOk, IsTrue, OnOk, length, option_map};
ghost use Rattle.std.specs.Option.{option_copied};
ghost use Rattle.nfs_rows.specs.Rows.{AnswersAs};
ghost use Rattle.nfs_owners.specs.Kept.{kept_seen, request_of, summary_closes};
ghost use Rattle.nfs_owners.specs.StateOwner.{owner_seen};
ghost use Rattle.nfs_owners.specs.declared.owner.Owner.{Owner};
ghost use Rattle.nfs_owners.specs.declared.state_owner.StateOwner.{StateOwner};
ghost use Rattle.nfs_owners.specs.Owner.{has_name, is_known, owner_of, standing_of};
ghost use Rattle.nfs_owners.specs.Owners.{AreBefore, IsJudged, StandInOrder, has_place, is_from, with_confirmed, with_kept, without_owner, without_owners_of};

use crate::owner_rows::OwnerRows;
use crate::{
    KeptCall, KeptSummary, OWNER_LIMIT, Owner, OwnerKind, OwnerRef, OwnerStanding, OwnerState,
    OwnersError, StateOwner, Verdict,
};
use nfs_rows::OwnerSeed;
use nfs_xdr::{ClientId, Op};
use std::alloc::Global;
use std::marker::Model;

/// The owners that the server knows, in the order in which they were recorded: at most `OWNER_LIMIT`, no two with one
/// name.
#[derive(Drop)]
pub struct Owners {
    owners: OwnerRows,
}

impl Model for Owners {
    ghost use Rattle.nfs_owners.specs.Owners.{AreOwners, RoomyOwners};
    ghost use Rattle.nfs_owners.specs.OwnerRows.{owners_in};

    ghost Value = { RoomyOwners };

    ghost view = { λ o. record {
      owners = owners_in o.owners.rows;
      room = o.owners.room;
    } };

    ghost invariant = { λ o. AreOwners (owners_in o.owners.rows) };
}

impl Owners {
    /// No owners, taking no memory. Their names are found by hashes with this seed.
    pub fn new(alloc: Global, names: OwnerSeed) -> Owners
        ensures { result.owners ≡ [] }
    {
        Owners {
            owners: OwnerRows::new(alloc, names),
        }
    }

    /// What is kept for the owner with this name, if it is known.
    pub fn find(&self, name: OwnerRef<'_>) -> Option<&OwnerState>
        ensures { option_copied result
            ≡ option_map (λ o. o.state) (owner_of (owner_seen name.entry) self.now.owners) }
    {
        match self.owners.find(name) {
            Some(owner) => Some(&owner.state),
            None => None,
        }
    }

    /// What is known of the owner with this name.
    pub fn known(&self, name: OwnerRef<'_>) -> OwnerStanding
        ensures { result ≡ standing_of
            (owner_of (owner_seen name.entry) self.now.owners) (owner_seen name.entry).kind }
    {
        let Some(state) = self.find(name) else {
            return OwnerStanding::Unknown;
        };
        match name.kind {
            OwnerKind::Open if state.confirmed => OwnerStanding::Confirmed,
            OwnerKind::Open => OwnerStanding::Unconfirmed,
            OwnerKind::Lock => OwnerStanding::Confirmed,
        }
    }

    /// The name of the owner whose kept request closed the client's state with this number, if there is one.
    pub fn closer_of(&self, client: ClientId, number: u32) -> Option<OwnerRef<'_>>
        ensures { option_map owner_seen result ≡ option_map (λ o. o.name)
            (find (λ o. summary_closes client number o.state.kept) self.now.owners) }
    {
        match self.owners.closer_of(client, number) {
            Some(owner) => Some(owner.name.as_ref()),
            None => None,
        }
    }

    /// The first owner that the journal's entry of this number recorded, or a later one, and that passes the test, if
    /// there is one. It finds the first that was recorded so by halving, and looks at those behind it one by one.
    pub fn find_from<F: Fn(&Owner) -> bool>(&self, entry: u32, test: F) -> Option<&Owner>
        requires { F.IsAlwaysCallable test }
        ensures found { (p : Owner → Bool) → AnswersAs F.Fn test p
            → option_copied result ≡ find (λ o. is_from entry o && p o) self.now.owners }
        ensures own { (p : Owner → Bool) → AnswersAs F.Fn test p → IfSome result
            (λ owner. owner_of owner.now.name self.now.owners ≡ Some owner.now) }
        ensures order { StandInOrder self.now.owners }
    {
        self.owners.find_from(entry, test)
    }

    /// The verdict on a request of the owner with this name, where this call is the one that is kept for it, or `None`
    /// if the owner is unknown.
    pub fn judge<'a>(
        &self,
        name: OwnerRef<'_>,
        kept: KeptCall<'a>,
        seqid: u32,
        op: &Op,
        filehandle: Option<u32>,
    ) -> Option<Verdict<'a>>
        ensures { IsJudged (option_map (λ o. kept_seen o.state.kept kept.entry)
            (owner_of (owner_seen name.entry) self.now.owners)) seqid
            (request_of op.now filehandle) result }
    {
        let owner = self.find(name)?;
        Some(owner.kept.judge(kept, seqid, op, filehandle))
    }

    /// Whether the owner is known, or can be recorded without exceeding the limit.
    pub fn has_place(&self, name: OwnerRef<'_>) -> bool
        ensures place { result ≡ has_place (owner_seen name.entry) self.now.owners }
        ensures left { IsTrue result
            → length (without_owner (owner_seen name.entry) self.now.owners) < OWNER_LIMIT }
    {
        // A hash costs more than this look.
        self.owners.len() < OWNER_LIMIT || self.is_known(name)
    }

    // Whether the owner with this name is known.
    fn is_known(&self, name: OwnerRef<'_>) -> bool
        ensures { result ≡ is_known (owner_seen name.entry) self.now.owners }
    {
        self.owners.row_of(name).is_some()
    }

    /// Makes room for one more owner, also where the owner is known. Full if it has no place.
    pub fn reserve(&mut self, name: OwnerRef<'_>) -> Result<(), OwnersError>
        ensures same { self.new.owners ≡ self.old.owners }
        ensures room { OnOk result (0 < self.new.room) }
        ensures grows { self.old.room ≤ self.new.room }
        ensures ready { 0 < self.old.room
            → IsTrue (has_place (owner_seen name.entry) self.old.owners) → IsOk result }
        ensures place { OnOk result (IsTrue (has_place (owner_seen name.entry) self.new.owners)) }
        ensures full { IsErrOf result OwnersError.Full
            ↔ has_place (owner_seen name.entry) self.old.owners ≡ false }
    {
        if !self.has_place(name) {
            return Err(OwnersError::Full);
        }
        Ok(self.owners.reserve()?)
    }

    /// Makes this the kept request of the owner with this name, in the journal's entry `number`; an unknown owner is
    /// recorded by it, after all others, confirmed or not. It takes no memory.
    pub fn keep(&mut self, name: StateOwner, number: u32, kept: KeptSummary, confirmed: bool)
        requires place { IsTrue (has_place name self.old.owners) }
        requires room { IsFalse (is_known name self.old.owners) → 0 < self.old.room }
        requires newest { IsFalse (is_known name self.old.owners)
            → AreBefore number self.old.owners }
        ensures owners { self.new.owners
            ≡ with_kept name number kept confirmed self.old.owners }
        ensures room { self.old.room ≤ self.new.room + 1 }
        ensures known { IsTrue (is_known name self.old.owners) → self.new.room ≡ self.old.room }
    {
        let owner = name.as_ref();
        let hash = self.owners.hash(owner);
        match self.owners.row_of_hash(hash, owner) {
            Some(row) => self.owners.keep_at(row, number, kept),
            None => self
                .owners
                .add(hash, Owner::new(name, number, kept, confirmed)),
        }
    }

    /// Confirms the owner with this name.
    pub fn confirm(&mut self, name: OwnerRef<'_>)
        ensures owners { self.new.owners ≡ with_confirmed (owner_seen name.entry) self.old.owners }
        ensures room { self.new.room ≡ self.old.room }
    {
        if let Some(row) = self.owners.row_of(name) {
            self.owners.confirm_at(row);
        }
    }

    /// Forgets the owner with this name.
    pub fn remove(&mut self, name: OwnerRef<'_>)
        ensures owners { self.new.owners ≡ without_owner (owner_seen name.entry) self.old.owners }
        ensures room { self.old.room ≤ self.new.room }
        ensures places { (other : StateOwner)
            → IsTrue (has_place other self.old.owners) → IsTrue (has_place other self.new.owners) }
    {
        if let Some(row) = self.owners.row_of(name) {
            self.owners.remove_at(row);
        }
    }

    /// Forgets the owners of this client.
    pub fn remove_client(&mut self, client: ClientId)
        ensures owners { self.new.owners ≡ without_owners_of client self.old.owners }
        ensures room { self.old.room ≤ self.new.room }
    {
        self.owners.remove_client(client);
    }
}
