//! The owners as rows, with the indexes by which they are found.

ghost use Rattle.std.specs.Prelude.{◌≡◌, ℕ, ◌<◌, ◌≤◌, ◌+◌, ◌&&◌, ◌++◌, ◌∷◌, [], Bool, IsOk, OnOk, Option, filter, find, length};
ghost use Rattle.std.specs.Option.{option_copied};
ghost use Rattle.nfs_rows.specs.Rows.{AnswersAs, is_from as is_row_from, is_numbered, without};
ghost use Rattle.nfs_owners.specs.Closers.{AreClosers, closed_at, closed_by, with_at};
ghost use Rattle.nfs_owners.specs.Kept.{summary_closes};
ghost use Rattle.nfs_owners.specs.Owner.{has_client, owner_of, with_request};
ghost use Rattle.nfs_owners.specs.OwnerRows.{IsRowOf, confirmed, name_hash, owners_in, with_state_at};
ghost use Rattle.nfs_owners.specs.Owners.{AreBefore, AreOwners, StandInOrder, is_from};
ghost use Rattle.nfs_owners.specs.StateOwner.{owner_seen};
ghost use Rattle.nfs_owners.specs.declared.owner.Owner.{Owner};
ghost use Rattle.nfs_owners.specs.declared.owner.TheConstants.{OWNER_LIMIT};

use crate::closers::Closers;
use crate::{KeptSummary, Owner, OwnerRef};
use nfs_rows::{OwnerSeed, Rows};
use nfs_xdr::ClientId;
use std::alloc::{AllocError, Global};
use std::marker::Model;

// The owners in rows, each with the number of the entry that recorded it, found by these numbers, by their names, and
// by the states that their kept requests closed.
#[derive(Drop)]
pub(crate) struct OwnerRows {
    rows: Rows<Owner>,
    closers: Closers,
    // The seed of the hashes of their names.
    names: OwnerSeed,
}

impl Model for OwnerRows {
    ghost use Rattle.std.specs.List.{AllByRecursion};
    ghost use Rattle.nfs_owners.specs.Closers.{AreClosers, capacity_of, closed_at};
    ghost use Rattle.nfs_owners.specs.OwnerRows.{IsFiled, RoomyOwnerRows};

    ghost Value = { RoomyOwnerRows };

    ghost view = { λ o. record {
      rows = o.rows.rows;
      room = o.rows.room;
      states = capacity_of o.closers;
      names = o.names;
    } };

    ghost invariant = { λ o. AllByRecursion (IsFiled o.names) o.rows.rows
        × AreClosers o.closers (closed_at o.rows.rows) };
}

impl OwnerRows {
    // No rows, taking no memory.
    pub fn new(alloc: Global, names: OwnerSeed) -> OwnerRows
        ensures { result.rows ≡ [] }
    {
        OwnerRows {
            rows: Rows::new(alloc),
            closers: Closers::new(alloc),
            names,
        }
    }

    // How many owners there are.
    pub fn len(&self) -> usize
        ensures { result ≡ length self.now.rows }
    {
        self.rows.len()
    }

    // The owner with this name, if it is known.
    pub fn find(&self, name: OwnerRef<'_>) -> Option<&Owner>
        ensures { option_copied result ≡ owner_of (owner_seen name.entry) (owners_in self.now.rows) }
    {
        match self
            .rows
            .find_named(name.hash(self.names), |owner| owner.has_name(name))
        {
            Some((_, owner)) => Some(owner),
            None => None,
        }
    }

    // The number of the row of the owner with this name, if it is known.
    pub fn row_of(&self, name: OwnerRef<'_>) -> Option<u64>
        requires { AreOwners (owners_in self.now.rows) }
        ensures { IsRowOf (owner_seen name.entry) self.now.rows result }
    {
        self.row_of_hash(self.hash(name), name)
    }

    // The hash of an owner's name.
    pub fn hash(&self, name: OwnerRef<'_>) -> u64
        ensures { result ≡ name_hash self.now.names (owner_seen name.entry) }
    {
        name.hash(self.names)
    }

    // The number of the row of the owner with this name, whose hash is at hand, if it is known.
    pub fn row_of_hash(&self, hash: u64, name: OwnerRef<'_>) -> Option<u64>
        requires owners { AreOwners (owners_in self.now.rows) }
        requires hash { hash ≡ name_hash self.now.names (owner_seen name) }
        ensures { IsRowOf (owner_seen name.entry) self.now.rows result }
    {
        let _rows = self.rows.len();
        match self.rows.find_named(hash, |owner| owner.has_name(name)) {
            Some((row, _)) => Some(row),
            None => None,
        }
    }

    // The first owner whose kept request closed the client's state with this number, if there is one.
    pub fn closer_of(&self, client: ClientId, number: u32) -> Option<&Owner>
        ensures { option_copied result
            ≡ find (λ o. summary_closes client number o.state.kept) (owners_in self.now.rows) }
    {
        if self.closers.partial {
            return closer_among(&self.rows, client, number);
        }
        let _rows = self.rows.len();
        let row = self.closers.find(number)?;
        let owner = self.rows.find(row)?;
        if owner.state.kept.closes(client, number) {
            Some(owner)
        } else {
            None
        }
    }

    // The first owner that this entry recorded, or a later one, and that passes the test, if there is one.
    pub fn find_from<F: Fn(&Owner) -> bool>(&self, entry: u32, test: F) -> Option<&Owner>
        requires { F.IsAlwaysCallable test }
        ensures found { (p : Owner → Bool) → AnswersAs F.Fn test p → option_copied result
            ≡ find (λ o. is_from entry o && p o) (owners_in self.now.rows) }
        ensures order { StandInOrder (owners_in self.now.rows) }
    {
        // `len` tells that the rows stand in the order of their numbers.
        let _rows = self.rows.len();
        found_from(&self.rows, u64::from(entry), test)
    }

    // Makes room, so that the next row takes no memory, and for as many closed states as there are rows with it.
    pub fn reserve(&mut self) -> Result<(), AllocError>
        requires { length self.old.rows ≤ OWNER_LIMIT }
        ensures rows { self.new.rows ≡ self.old.rows }
        ensures room { OnOk result (0 < self.new.room) }
        ensures grows { self.old.room ≤ self.new.room }
        ensures ready { 0 < self.old.room → IsOk result }
        ensures states { self.old.room ≡ 0 → OnOk result (length self.new.rows < self.new.states) }
    {
        if self.rows.has_room() {
            return Ok(());
        }
        self.closers.reserve(self.rows.len() + 1)?;
        self.rows.reserve()
    }

    // Adds a row with this owner, whose name has this hash, and who was recorded after all others. It takes no memory.
    pub fn add(&mut self, hash: u64, owner: Owner)
        requires room { 0 < self.old.room }
        requires hash { hash ≡ name_hash self.old.names owner.name }
        requires newest { AreBefore owner.state.recorded (owners_in self.old.rows) }
        ensures owners { owners_in self.new.rows ≡ owners_in self.old.rows ++ owner ∷ [] }
        ensures room { self.old.room ≡ self.new.room + 1 }
    {
        let row = u64::from(owner.state.recorded);
        self.closers.note(owner.state.kept.closed_number(), row);
        self.rows.add(row, hash, owner.name.client.number, owner);
    }

    // Makes this the kept request of the owner in this row.
    pub fn keep_at(&mut self, row: u64, number: u32, kept: KeptSummary)
        ensures rows { self.new.rows ≡ with_state_at (with_request number kept) row self.old.rows }
        ensures room { self.new.room ≡ self.old.room }
    {
        match self.rows.find_mut(row) {
            Some(owner) => change_kept(owner, &mut self.closers, row, number, kept),
            None => {}
        }
    }

    // Confirms the owner in this row.
    pub fn confirm_at(&mut self, row: u64)
        ensures rows { self.new.rows ≡ with_state_at confirmed row self.old.rows }
        ensures room { self.new.room ≡ self.old.room }
    {
        if let Some(owner) = self.rows.find_mut(row) {
            owner.state.confirmed = true;
        }
    }

    // Removes this row.
    pub fn remove_at(&mut self, row: u64)
        ensures rows { self.new.rows ≡ without (is_numbered row) self.old.rows }
        ensures room { self.new.room ≡ self.old.room }
    {
        let closed = closed_in_row(&self.rows, row);
        drop(self.rows.remove(row));
        self.closers.forget(closed);
        self.closers.settle(self.rows.is_empty());
    }

    // Removes the rows of this client's owners.
    pub fn remove_client(&mut self, client: ClientId)
        ensures rows { self.new.rows ≡ without (λ r. has_client client r.value) self.old.rows }
        ensures room { self.new.room ≡ self.old.room }
    {
        forget_client(&self.rows, &mut self.closers, client);
        self.rows
            .remove_of_client(client.number, |owner| owner.has_client(client));
        self.closers.settle(self.rows.is_empty());
    }
}

// Makes this the kept request of the owner, who is in this row.
fn change_kept(owner: &mut Owner, closers: &mut Closers, row: u64, number: u32, kept: KeptSummary)
    ensures owner { owner.new ≡ record owner.old {
      state = with_request number kept owner.old.state;
    } }
    ensures closers { (f : ℕ → Option ℕ) → f row ≡ closed_by owner.old.state.kept
        → AreClosers closers.old f → AreClosers closers.new (with_at row (closed_by kept) f) }
{
    closers.forget(owner.state.kept.closed_number());
    closers.note(kept.closed_number(), row);
    owner.state.keep(number, kept);
}

// The number of the state that the kept request of the owner in this row closed, if it closed one.
fn closed_in_row(rows: &Rows<Owner>, row: u64) -> Option<u32>
    ensures { result ≡ closed_at rows.now.rows row }
{
    match rows.find(row) {
        Some(owner) => owner.state.kept.closed_number(),
        None => None,
    }
}

// The first owner in the rows from this number on that passes the test, if there is one.
fn found_from<F: Fn(&Owner) -> bool>(rows: &Rows<Owner>, number: u64, test: F) -> Option<&Owner>
    requires { F.IsAlwaysCallable test }
    ensures { (p : Owner → Bool) → AnswersAs F.Fn test p
        → option_copied result ≡ find p (owners_in (filter (is_row_from number) rows.now.rows)) }
{
    for (_, owner) in rows.iter_from(number) {
        if test(owner) {
            return Some(owner);
        }
    }
    None
}

// The first owner in these rows whose kept request closed the client's state with this number, if there is one.
fn closer_among(rows: &Rows<Owner>, client: ClientId, number: u32) -> Option<&Owner>
    ensures { option_copied result
        ≡ find (λ o. summary_closes client number o.state.kept) (owners_in rows.now.rows) }
{
    for (_, owner) in rows.iter() {
        if owner.state.kept.closes(client, number) {
            return Some(owner);
        }
    }
    None
}

// Forgets the states that were closed by owners of this client.
fn forget_client(rows: &Rows<Owner>, closers: &mut Closers, client: ClientId)
    ensures { AreClosers closers.old (closed_at rows.now.rows)
        → AreClosers closers.new (closed_at (without (λ r. has_client client r.value) rows.now.rows)) }
{
    let _rows = rows.len();
    for (_, owner) in rows.iter() {
        if owner.has_client(client) {
            closers.forget(owner.state.kept.closed_number());
        }
    }
}
