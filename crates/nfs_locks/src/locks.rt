//! The lock states of all files, found by stateid without a walk over the files.

ghost use Rattle.std.specs.Prelude.{◌≡◌, ◌-◌, ◌&&◌, [], IfOk, IsFalse, IsOk, OnOk, map, option_map, replicate};
ghost use Rattle.std.specs.List.{list_any};
ghost use Rattle.std.specs.Option.{option_copied};
ghost use Rattle.nfs_locks.specs.AllLocks.{HasLockRoomAt, HasRoomFor, IsAboveAll, at_node, holds, is_full_for, lock_count, lock_named_in, locks_in, locks_of, stored_in, with_locks};
ghost use Rattle.nfs_locks.specs.LockFound.{lock_found_seen};
ghost use Rattle.nfs_locks.specs.LockNodes.{HaveHash, names_of};
ghost use Rattle.nfs_locks.specs.Locks.{holds_bytes, holds_under, is_lock_of, is_lock_of_client, is_under, lock_of, with_first_lock, with_lock_change, without};
ghost use Rattle.nfs_locks.specs.Report.{IsReport};
ghost use Rattle.nfs_locks.specs.ReportSeen.{report_seen};
ghost use Rattle.nfs_locks.specs.StoredLocks.{lock_seen};

use crate::file_locks::FileLocks;
use crate::numbers::close_in;
use crate::owner_hash::owner_hash;
use crate::{FirstLock, LockState, Report};
use nfs_forms::{ClientId, LockOwner, Stateid};
use nfs_nodes::{Nodes, reserve_number};
use nfs_ranges::{Mode, Piece, Range};
use nfs_rows::OwnerSeed;
use std::alloc::{AllocError, Global};
use std::marker::Model;

/// The lock states of all files, by the numbers of their nodes. A node that there isn't has no lock states, and a
/// change of its lock states changes nothing.
#[derive(Drop)]
pub struct Locks {
    files: Vec<FileLocks>,
    // The nodes of the lock states by their numbers, and of some that there are no more.
    nodes: Nodes,
    // How many lock states there are.
    count: usize,
    // the key of the hashes of owners, in all files
    names: OwnerSeed,
}

/// A lock state, and the node of its file.
#[derive(Clone, Copy)]
pub struct LockFound<'a> {
    pub node: u32,
    pub state: &'a LockState,
}

impl Model for Locks {
    ghost use Rattle.std.specs.Prelude.{List, map};
    ghost use Rattle.nfs_locks.specs.AllLocks.{locks_in};
    ghost use Rattle.nfs_locks.specs.LockNodes.{AreNamedBy, number_of, within_room};
    ghost use Rattle.nfs_locks.specs.StoredLocks.{StoredLocks};
    ghost use Rattle.nfs_nodes.specs.Numbers.{AreFound};

    ghost Value = { List StoredLocks };

    ghost view = { λ l. map (within_room l.nodes.room) l.files.items };

    ghost invariant = { λ l. AreFound number_of l.nodes l.count (locks_in l.files.items)
        × AreNamedBy l.names l.files.items };
}

impl Locks {
    /// No lock states of any of these nodes.
    pub fn new(alloc: Global, nodes: u32, names: OwnerSeed) -> Result<Locks, AllocError>
        ensures { IfOk result (λ locks. stored_in locks ≡ replicate nodes []) }
    {
        let mut files = Vec::new(alloc);
        files.reserve(nodes as usize)?;
        for _ in 0..nodes {
            files.push_reserved(FileLocks::new(alloc, names));
        }
        Ok(Locks {
            files,
            nodes: Nodes::new(alloc),
            count: 0,
            names,
        })
    }

    /// The lock state that the stateid names, no matter its seqid, if there is one.
    pub fn find(&self, stateid: Stateid) -> Option<LockFound<'_>>
        ensures { option_map lock_found_seen result ≡ lock_named_in stateid (locks_in self.now) }
    {
        let node = self.nodes.find(stateid.number)?;
        let file = self.files.get(node as usize)?;
        found_at(node, file.named_by(stateid))
    }

    /// The lock state that this owner has of the node's file, if there is one.
    pub fn lock_of(&self, node: u32, owner: &LockOwner) -> Option<&LockState>
        ensures { option_map lock_seen (option_copied result)
            ≡ lock_of owner.now (locks_of node (locks_in self.now)) }
    {
        self.files.get(node as usize)?.lock_of(owner)
    }

    /// Whether an owner of the client has a lock state.
    pub fn has_client(&self, client: ClientId) -> bool
        ensures { result ≡ list_any (list_any (is_lock_of_client client)) (locks_in self.now) }
    {
        has_client_in(&self.files, client)
    }

    /// Whether the owner holds a byte of a file.
    pub fn holds(&self, owner: &LockOwner) -> bool
        ensures { result ≡ holds owner.now (locks_in self.now) }
    {
        let hash = owner_hash(self.names, owner);
        holds_in(&self.files, hash, owner)
    }

    /// Whether a lock state of the node's file, under the open with this number, holds a byte.
    pub fn holds_under(&self, node: u32, open_number: u32) -> bool
        ensures { result ≡ holds_under open_number (locks_of node (locks_in self.now)) }
    {
        match self.files.get(node as usize) {
            Some(file) => file.holds_under(open_number),
            None => false,
        }
    }

    /// How many places of this limit the lock states leave.
    pub fn places_left(&self, limit: usize) -> usize
        ensures { result ≡ limit - lock_count (locks_in self.now) }
    {
        limit.saturating_sub(self.count)
    }

    /// Whether a change of the lock state of the node's file with this number would make more runs of bytes than an
    /// owner may have of a file.
    pub fn is_full_for(&self, node: u32, number: u32, change: Piece) -> bool
        ensures { result ≡ is_full_for number change (locks_of node (locks_in self.now)) }
    {
        match self.files.get(node as usize) {
            Some(file) => file.is_full_for(number, change),
            None => false,
        }
    }

    /// The lock of the node's file that is in the way of the owner's lock of the range in this mode, if there is one.
    pub fn report(
        &self,
        node: u32,
        owner: &LockOwner,
        range: Range,
        mode: Mode,
    ) -> Option<Report<'_>>
        ensures { IsReport (locks_of node (locks_in self.now)) owner.now range mode
            (option_map report_seen result) }
    {
        self.files.get(node as usize)?.report(owner, range, mode)
    }

    /// Makes room for an owner's first lock of the node's file.
    pub fn reserve(&mut self, alloc: Global, node: u32) -> Result<(), AllocError>
        ensures stored { stored_in self.new ≡ stored_in self.old }
        ensures room { OnOk result (HasLockRoomAt node self.new) }
        ensures ready { HasLockRoomAt node self.old → IsOk result }
    {
        let node = node as usize;
        if node < self.files.len() {
            reserve_number::<LockState, FileLocks>(&self.files, &mut self.nodes, self.count)?;
            self.files[node].reserve(alloc)?;
        }
        Ok(())
    }

    /// Makes room for the next change of the lock state of the node's file with this number.
    pub fn reserve_change(&mut self, node: u32, number: u32) -> Result<(), AllocError>
        ensures stored { stored_in self.new ≡ stored_in self.old }
        ensures room { OnOk result (HasRoomFor node number self.new) }
        ensures ready { HasRoomFor node number self.old → IsOk result }
    {
        let node = node as usize;
        if node < self.files.len() {
            self.files[node].reserve_change(number)?;
        }
        Ok(())
    }

    /// LOCK of an owner that has no lock state of the node's file, no matter what others hold: makes one with this
    /// number, which has to be above those of all others. It takes no memory.
    pub fn begin(&mut self, node: u32, first: FirstLock, number: u32)
        requires room { HasLockRoomAt node self.old }
        requires newest { IsAboveAll number (locks_in self.old) }
        ensures { locks_in self.new
            ≡ with_locks node (with_first_lock first number) (locks_in self.old) }
    {
        let at = node as usize;
        if at < self.files.len() {
            self.files[at].begin(first, number);
            self.nodes.add(number, node);
            self.count += 1;
        }
    }

    /// LOCK or LOCKU by the lock state of the node's file with this number, no matter what others hold. It takes no
    /// memory.
    pub fn change(&mut self, node: u32, number: u32, change: Piece)
        requires room { HasRoomFor node number self.old }
        requires place { IsFalse (is_full_for number change (locks_of node (locks_in self.old))) }
        ensures { locks_in self.new
            ≡ with_locks node (with_lock_change number change) (locks_in self.old) }
    {
        let node = node as usize;
        if node < self.files.len() {
            self.files[node].change(number, change);
        }
    }

    /// CLOSE: removes the lock states of the node's file under the open with this number.
    pub fn close(&mut self, node: u32, open_number: u32)
        ensures { locks_in self.new
            ≡ with_locks node (without (is_under open_number)) (locks_in self.old) }
    {
        let node = node as usize;
        if node < self.files.len() {
            self.count -= close_in(&mut self.files[node], open_number);
        }
    }

    /// Removes the lock states of the owner.
    pub fn remove_owner(&mut self, owner: &LockOwner)
        ensures { locks_in self.new ≡ map (without (is_lock_of owner.now)) (locks_in self.old) }
    {
        let hash = owner_hash(self.names, owner);
        remove_owner_each(&mut self.files, hash, owner);
        self.count -= places_left(&self.files, self.count);
    }

    /// Removes the lock states of all owners of this client.
    pub fn remove_client(&mut self, client: ClientId)
        ensures { locks_in self.new
            ≡ map (without (is_lock_of_client client)) (locks_in self.old) }
    {
        remove_client_each(&mut self.files, client);
        self.count -= places_left(&self.files, self.count);
    }
}

fn has_client_in(files: &[FileLocks], client: ClientId) -> bool
    ensures { result ≡ list_any
        (λ f. list_any (λ l. is_lock_of_client client (lock_seen l)) f.states) files.now }
{
    files.iter().any(|file| file.has_client(client))
}

// Whether the owner, whose hash is at hand, holds a byte of one of these files.
fn holds_in(files: &[FileLocks], hash: u64, owner: &LockOwner) -> bool
    requires { HaveHash hash owner.now files.now }
    ensures { result ≡ list_any (λ f. list_any
        (λ l. is_lock_of owner.now (lock_seen l) && holds_bytes (lock_seen l)) f.states) files.now }
{
    for file in files.iter() {
        if file.holds(hash, owner) {
            return true;
        }
    }
    false
}

// How many places of this limit the lock states of these files leave.
fn places_left(files: &[FileLocks], limit: usize) -> usize
    ensures { result ≡ limit - lock_count (locks_in files.now) }
{
    let mut left = limit;
    for file in files.iter() {
        left = left.saturating_sub(file.len());
    }
    left
}

fn remove_owner_each(files: &mut Vec<FileLocks>, hash: u64, owner: &LockOwner)
    requires { HaveHash hash owner.now files.old.items }
    ensures locks { locks_in files.new.items
        ≡ map (without (is_lock_of owner.now)) (locks_in files.old.items) }
    ensures names { names_of files.new.items ≡ names_of files.old.items }
{
    remove_owner_in(files, hash, owner);
}

fn remove_owner_in(files: &mut [FileLocks], hash: u64, owner: &LockOwner)
    requires { HaveHash hash owner.now files.old }
    ensures locks { locks_in files.new ≡ map (without (is_lock_of owner.now)) (locks_in files.old) }
    ensures names { names_of files.new ≡ names_of files.old }
{
    for file in files.iter_mut() {
        file.remove_owner(hash, owner);
    }
}

fn remove_client_each(files: &mut Vec<FileLocks>, client: ClientId)
    ensures locks { locks_in files.new.items
        ≡ map (without (is_lock_of_client client)) (locks_in files.old.items) }
    ensures names { names_of files.new.items ≡ names_of files.old.items }
{
    remove_client_in(files, client);
}

fn remove_client_in(files: &mut [FileLocks], client: ClientId)
    ensures locks { locks_in files.new
        ≡ map (without (is_lock_of_client client)) (locks_in files.old) }
    ensures names { names_of files.new ≡ names_of files.old }
{
    for file in files.iter_mut() {
        file.remove_client(client);
    }
}

// The lock state, if there is one, as one of this node's file.
fn found_at(node: u32, state: Option<&LockState>) -> Option<LockFound<'_>>
    ensures { option_map lock_found_seen result
        ≡ at_node node (option_map lock_seen (option_copied state.entry)) }
{
    match state {
        Some(state) => Some(LockFound { node, state }),
        None => None,
    }
}
