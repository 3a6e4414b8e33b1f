//! The lock states of one file, by owner and by number, and how each LOCK, LOCKU and CLOSE changes them.

ghost use Rattle.std.specs.Prelude.{◌≡◌, ◌≤◌, ◌<◌, ◌&&◌, [], IfOk, IsFalse, IsOk, OnOk, None, length, option_map};
ghost use Rattle.std.specs.List.{AllByRecursion, find, list_any};
ghost use Rattle.std.specs.Option.{option_copied};
ghost use Rattle.nfs_locks.specs.AllLocks.{HasLockRoom, HasRangeRoom, is_full_for};
ghost use Rattle.nfs_locks.specs.KeptLocks.{NumbersRise, owner_hash};
ghost use Rattle.nfs_locks.specs.Locks.{IsAbove, holds_bytes, is_lock_of, is_lock_of_client, is_numbered, is_stateid_of, is_under, with_first_lock, with_lock_change, without, would_be_full};
ghost use Rattle.nfs_locks.specs.Report.{IsReport};
ghost use Rattle.nfs_locks.specs.ReportSeen.{report_seen};
ghost use Rattle.nfs_locks.specs.StoredLocks.{lock_seen, locks_seen, stored_locks};

use crate::owner_hash::owner_hash;
use crate::removals::{remove_named, remove_under};
use crate::report::report_among;
use crate::reserves::{reserve, roomy_ranges};
use crate::{FirstLock, LockState, Report};
use nfs_forms::{ClientId, LockOwner, Stateid};
use nfs_nodes::Numbered;
use nfs_ranges::{Mode, Piece, Range, Ranges};
use nfs_rows::{OwnerSeed, Rows};
use std::alloc::{AllocError, Global};
use std::marker::Model;

/// The lock states of a file, in the order in which they began.
#[derive(Drop)]
pub(crate) struct FileLocks {
    states: Rows<LockState>,
    // ranges that are free and have room, for the next lock state
    spare: Option<Ranges>,
    // the key of the hashes of owners
    names: OwnerSeed,
}

impl Model for FileLocks {
    ghost use Rattle.std.specs.Prelude.{◌≡◌, ◌<◌, [], IfSome, is_some};
    ghost use Rattle.nfs_locks.specs.KeptLocks.{AreRowsOf, states_of};
    ghost use Rattle.nfs_locks.specs.StoredLocks.{StoredLocks};

    ghost Value = { StoredLocks };

    ghost view = { λ f. record {
      states = states_of f.states.rows;
      room = f.states.room;
      spare = is_some f.spare;
      names = f.names;
    } };

    ghost invariant = { λ f. AreRowsOf f.names f.states.rows
        × IfSome f.spare (λ r. (r.pieces ≡ []) × (0 < r.room)) };
}

impl Numbered<LockState> for FileLocks {
    ghost use Rattle.nfs_locks.specs.LockNodes.{number_of};
    ghost use Rattle.nfs_locks.specs.Locks.{ByteLocks};
    ghost use Rattle.nfs_locks.specs.StoredLocks.{locks_seen};

    ghost State = { ByteLocks };

    ghost number_of = { number_of };

    ghost states = { λ f. locks_seen f.states };

    fn has_number(&self, number: u32) -> bool {
        self.numbered(number).is_some()
    }
}

impl FileLocks {
    /// A file without lock states, taking no memory. Owners are hashed with this key.
    pub fn new(alloc: Global, names: OwnerSeed) -> FileLocks
        ensures states { result.states ≡ [] }
        ensures names { result.names ≡ names }
    {
        FileLocks {
            states: Rows::new(alloc),
            spare: None,
            names,
        }
    }

    /// How many lock states there are.
    pub fn len(&self) -> usize
        ensures { result ≡ length self.now.states }
    {
        self.states.len()
    }

    /// The lock state that the stateid names, no matter its seqid, if there is one.
    pub fn named_by(&self, stateid: Stateid) -> Option<&LockState>
        ensures { option_copied result
            ≡ find (λ l. is_stateid_of stateid (lock_seen l)) self.now.states }
    {
        let state = self.numbered(stateid.number)?;
        if state.is_of_client(stateid.client) {
            Some(state)
        } else {
            None
        }
    }

    // The lock state with this number, if there is one; its number is that of no other.
    fn numbered(&self, number: u32) -> Option<&LockState>
        ensures found { option_copied result
            ≡ find (λ l. is_numbered number (lock_seen l)) self.now.states }
        ensures order { NumbersRise self.now.states }
    {
        // `len` tells that the rows stand in the order of their numbers.
        let _count = self.states.len();
        self.states.find(u64::from(number))
    }

    /// Whether the stateid names a lock state.
    pub fn names(&self, stateid: Stateid) -> bool
        ensures { result ≡ list_any (λ l. is_stateid_of stateid (lock_seen l)) self.now.states }
    {
        self.named_by(stateid).is_some()
    }

    /// The lock state of this owner, if there is one.
    pub fn lock_of(&self, owner: &LockOwner) -> Option<&LockState>
        ensures { option_copied result
            ≡ find (λ l. is_lock_of owner.now (lock_seen l)) self.now.states }
    {
        let hash = owner_hash(self.names, owner);
        match self.states.find_named(hash, |state| state.is_of(owner)) {
            Some((_, state)) => Some(state),
            None => None,
        }
    }

    /// Whether an owner of this client has a lock state.
    pub fn has_client(&self, client: ClientId) -> bool
        ensures { result ≡ list_any (λ l. is_lock_of_client client (lock_seen l)) self.now.states }
    {
        self.states.iter().any(|row| row.1.is_of_client(client))
    }

    /// Whether this owner, whose hash is at hand, holds a byte.
    pub fn holds(&self, hash: u64, owner: &LockOwner) -> bool
        requires { hash ≡ owner_hash self.now.names owner.now }
        ensures { result ≡ list_any
            (λ l. is_lock_of owner.now (lock_seen l) && holds_bytes (lock_seen l)) self.now.states }
    {
        self.states
            .find_named(hash, |state| state.is_held_by(owner))
            .is_some()
    }

    /// Whether a lock state under the open with this number holds a byte.
    pub fn holds_under(&self, open_number: u32) -> bool
        ensures { result ≡ list_any
            (λ l. is_under open_number (lock_seen l) && holds_bytes (lock_seen l))
            self.now.states }
    {
        self.states
            .iter()
            .any(|row| row.1.is_held_under(open_number))
    }

    /// Whether a change of the lock state with this number would make too many runs of bytes.
    pub fn is_full_for(&self, number: u32, change: Piece) -> bool
        ensures { result ≡ list_any
            (λ l. is_numbered number (lock_seen l) && would_be_full change (lock_seen l))
            self.now.states }
    {
        match self.numbered(number) {
            Some(state) => state.is_full_for(change),
            None => false,
        }
    }

    /// The lock that is in the way of the owner's lock of the range in this mode, if there is one.
    pub fn report(&self, owner: &LockOwner, range: Range, mode: Mode) -> Option<Report<'_>>
        ensures { IsReport (locks_seen self.now.states) owner.now range mode
            (option_map report_seen result) }
    {
        report_among(&self.states, owner, range, mode)
    }

    /// Makes room for an owner's first lock.
    pub fn reserve(&mut self, alloc: Global) -> Result<(), AllocError>
        ensures states { self.new.states ≡ self.old.states }
        ensures room { OnOk result (HasLockRoom self.new) }
        ensures ready { HasLockRoom self.old → IsOk result }
        ensures names { self.new.names ≡ self.old.names }
    {
        self.states.reserve()?;
        if self.spare.is_none() {
            self.spare = Some(roomy_ranges(alloc)?);
        }
        Ok(())
    }

    /// Makes room for the next change of the lock state with this number.
    pub fn reserve_change(&mut self, number: u32) -> Result<(), AllocError>
        ensures states { stored_locks self.new.states ≡ stored_locks self.old.states }
        ensures room { OnOk result (AllByRecursion (HasRangeRoom number) self.new.states) }
        ensures ready { AllByRecursion (HasRangeRoom number) self.old.states → IsOk result }
        ensures names { self.new.names ≡ self.old.names }
    {
        let Some(state) = self.states.find_mut(u64::from(number)) else {
            return Ok(());
        };
        reserve(&mut state.ranges)
    }

    /// LOCK of an owner that has no lock state of the file: makes one with this number, which has to be above those of
    /// all others. It takes no memory.
    pub fn begin(&mut self, first: FirstLock, number: u32)
        requires room { HasLockRoom self.old }
        requires newest { IsAbove number (locks_seen self.old.states) }
        ensures states { locks_seen self.new.states
            ≡ with_first_lock first number (locks_seen self.old.states) }
        ensures names { self.new.names ≡ self.old.names }
    {
        if let Some(ranges) = self.spare.take() {
            let hash = owner_hash(self.names, &first.owner);
            let client = first.owner.client.number;
            let state = LockState::new(first, number, ranges);
            self.states.add(u64::from(number), hash, client, state);
        }
    }

    /// LOCK or LOCKU by the lock state with this number. It takes no memory.
    pub fn change(&mut self, number: u32, change: Piece)
        requires room { AllByRecursion (HasRangeRoom number) self.old.states }
        requires place { IsFalse (is_full_for number change (locks_seen self.old.states)) }
        ensures states { locks_seen self.new.states
            ≡ with_lock_change number change (locks_seen self.old.states) }
        ensures names { self.new.names ≡ self.old.names }
    {
        if let Some(state) = self.states.find_mut(u64::from(number)) {
            state.change(change);
        }
    }

    /// CLOSE: removes the lock states under the open with this number.
    pub fn close(&mut self, open_number: u32)
        ensures states { locks_seen self.new.states
            ≡ without (is_under open_number) (locks_seen self.old.states) }
        ensures names { self.new.names ≡ self.old.names }
    {
        remove_under(&mut self.states, open_number);
    }

    /// Removes the lock state of this owner, whose hash is at hand.
    pub fn remove_owner(&mut self, hash: u64, owner: &LockOwner)
        requires { hash ≡ owner_hash self.old.names owner.now }
        ensures states { locks_seen self.new.states
            ≡ without (is_lock_of owner.now) (locks_seen self.old.states) }
        ensures names { self.new.names ≡ self.old.names }
    {
        remove_named(&mut self.states, hash, owner);
    }

    /// Removes the lock states of all owners of this client.
    pub fn remove_client(&mut self, client: ClientId)
        ensures states { locks_seen self.new.states
            ≡ without (is_lock_of_client client) (locks_seen self.old.states) }
        ensures names { self.new.names ≡ self.old.names }
    {
        self.states
            .remove_of_client(client.number, |state| state.is_of_client(client));
    }
}
