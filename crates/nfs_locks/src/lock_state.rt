//! One lock owner's lock state of a file, with its stateid.

use crate::FirstLock;
use nfs_forms::{ClientId, LockOwner, Stateid};
use nfs_ranges::{Piece, Ranges, first_change_has_place};

/// What one lock owner holds of a file (RFC 7530, section 9.1.4).
#[derive(Drop)]
pub struct LockState {
    pub owner: LockOwner,
    /// The number of the open under which the owner's first lock of the file came.
    pub open_number: u32,
    /// The number in its stateid.
    pub number: u32,
    /// The seqid in its stateid.
    pub seqid: u32,
    pub ranges: Ranges,
}

impl LockState {
    ghost use Rattle.std.specs.Prelude.{◌≡◌, ◌<◌, ◌&&◌, [], IsFalse};
    ghost use Rattle.nfs_locks.specs.Locks.{after_change, first_state, holds_bytes, is_lock_of, is_lock_of_client, is_numbered, is_stateid_of, is_under, next_stateid_of, stateid_of, would_be_full};
    ghost use Rattle.nfs_locks.specs.StoredLocks.{lock_seen};
    ghost use Rattle.nfs_ranges.specs.RoomyRanges.{RoomyRanges};

    /// The lock state that an owner's first lock of the file makes, of ranges that are free and have room. It takes no
    /// memory.
    pub(crate) fn new(first: FirstLock, number: u32, ranges: Ranges) -> LockState
        requires free { ranges.pieces ≡ [] }
        requires room { 0 < ranges.room }
        ensures { lock_seen result ≡ first_state first number }
    {
        let FirstLock {
            owner,
            open_number,
            change,
        } = first;
        let mut ranges = ranges;
        first_change_has_place();
        ranges.change(change);
        LockState {
            owner,
            open_number,
            number,
            seqid: 1,
            ranges,
        }
    }

    /// The lock state's stateid as it is now.
    pub fn stateid(&self) -> Stateid
        ensures { result ≡ stateid_of (lock_seen self.now) }
    {
        Stateid {
            seqid: self.seqid,
            client: self.owner.client,
            number: self.number,
        }
    }

    /// The lock state's stateid after its next change.
    pub fn next_stateid(&self) -> Stateid
        ensures { result ≡ next_stateid_of (lock_seen self.now) }
    {
        self.stateid().next()
    }

    /// Whether this owner has the lock state.
    pub fn is_of(&self, owner: &LockOwner) -> bool
        ensures { result ≡ is_lock_of owner.now (lock_seen self.now) }
    {
        self.owner == *owner
    }

    /// Whether an owner of this client has the lock state.
    pub fn is_of_client(&self, client: ClientId) -> bool
        ensures { result ≡ is_lock_of_client client (lock_seen self.now) }
    {
        self.owner.client == client
    }

    /// Whether the stateid is one of the lock state's, no matter its seqid.
    pub fn is_named_by(&self, stateid: Stateid) -> bool
        ensures { result ≡ is_stateid_of stateid (lock_seen self.now) }
    {
        self.is_of_client(stateid.client) && self.number == stateid.number
    }

    /// Whether this owner has the lock state and holds a byte by it.
    pub(crate) fn is_held_by(&self, owner: &LockOwner) -> bool
        ensures { result
            ≡ (is_lock_of owner.now (lock_seen self.now) && holds_bytes (lock_seen self.now)) }
    {
        self.is_of(owner) && !self.ranges.is_empty()
    }

    /// Whether a byte is held by it, and it is under the open with this number.
    pub(crate) fn is_held_under(&self, open_number: u32) -> bool
        ensures { result
            ≡ (is_under open_number (lock_seen self.now) && holds_bytes (lock_seen self.now)) }
    {
        self.open_number == open_number && !self.ranges.is_empty()
    }

    /// Whether the change would make too many runs of bytes.
    pub(crate) fn is_full_for(&self, change: Piece) -> bool
        ensures { result ≡ would_be_full change (lock_seen self.now) }
    {
        !self.ranges.has_place_for(change)
    }

    /// LOCK or LOCKU: changes the bytes that are held, and gives the lock state its next seqid. It takes no memory.
    pub(crate) fn change(&mut self, change: Piece)
        requires room { 0 < self.old.ranges.room }
        requires place { IsFalse (would_be_full change (lock_seen self.old)) }
        ensures { lock_seen self.new ≡ after_change change (lock_seen self.old) }
    {
        self.seqid = self.stateid().next().seqid;
        self.ranges.change(change);
    }
}
