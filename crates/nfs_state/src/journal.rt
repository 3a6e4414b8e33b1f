//! The journal: what the server was started with, and each entry since then.

ghost use Rattle.std.specs.Prelude.{◌≡◌, ◌<◌, ◌≤◌, [], nat_le, length, slice_get, IsOk, IsTrue, OnOk};
ghost use Rattle.std.specs.Option.{option_copied};
ghost use Rattle.nfs_state.specs.Entries.{with_entry};
ghost use Rattle.nfs_state.specs.MemoryCount.{IsNoCall};
ghost use Rattle.nfs_state.specs.PieceList.{piece_from};

use crate::memory_count::MemoryCount;
use crate::piece_list::PieceList;
use crate::{Entry, JOURNAL_LIMIT};
use nfs_tree::{Policy, Tree};
use std::alloc::{AllocError, Global};
use std::marker::Model;

/// The shortest lease, in seconds.
pub const LEASE_MIN: u32 = 1;

/// The longest lease, in seconds.
pub const LEASE_MAX: u32 = 86_400;

/// What the server was started with, and the journal's entries in order, numbered from 0.
#[derive(Drop)]
pub struct Journal {
    tree: Tree,
    epoch: u32,
    lease: u32,
    policy: Policy,
    entries: PieceList<Entry>,
    // What the entries count of a run's memory, if that has a bound. Contracts don't see it.
    memory: MemoryCount,
}

impl Model for Journal {
    ghost use Rattle.std.specs.Prelude.{◌≤◌};
    ghost use Rattle.nfs_state.specs.Journal.{RoomyJournal};
    ghost use Rattle.nfs_state.specs.declared.journal.TheConstants.{LEASE_MIN, LEASE_MAX};

    ghost Value = { RoomyJournal };

    ghost view = { λ j. record {
      history = record {
        nodes = j.tree.nodes;
        epoch = j.epoch;
        lease = j.lease;
        policy = j.policy;
        entries = j.entries.items;
      };
      room = j.entries.room;
    } };

    ghost invariant = { λ j. (LEASE_MIN ≤ j.lease) × (j.lease ≤ LEASE_MAX) };
}

impl Journal {
    /// An empty journal, taking no memory.
    pub fn new(alloc: Global, tree: Tree, lease: u32, epoch: u32, policy: Policy) -> Journal
        requires { (LEASE_MIN ≤ lease) × (lease ≤ LEASE_MAX) }
        ensures { result.history ≡ record {
          nodes = tree.nodes;
          epoch = epoch;
          lease = lease;
          policy = policy;
          entries = [];
        } }
    {
        Journal {
            tree,
            epoch,
            lease,
            policy,
            entries: PieceList::new(alloc),
            memory: MemoryCount::new(),
        }
    }

    /// A tree with the nodes of the one that the server was started with.
    pub fn tree(&self) -> &Tree
        ensures { result.now.nodes ≡ self.now.history.nodes }
    {
        &self.tree
    }

    /// The policy that the server was started with.
    pub fn policy(&self) -> Policy
        ensures { result ≡ self.now.history.policy }
    {
        self.policy
    }

    /// The number of the server's run, the upper half of each clientid that it gives out.
    pub fn epoch(&self) -> u32
        ensures { result ≡ self.now.history.epoch }
    {
        self.epoch
    }

    /// The lease in seconds, from `LEASE_MIN` to `LEASE_MAX`.
    pub fn lease(&self) -> u32
        ensures value { result ≡ self.now.history.lease }
        ensures range { (LEASE_MIN ≤ result) × (result ≤ LEASE_MAX) }
    {
        self.lease
    }

    /// How many entries it has.
    pub fn len(&self) -> usize
        ensures { result ≡ length self.now.history.entries }
    {
        self.entries.len()
    }

    /// The entry with this number, if there is one.
    pub fn entry(&self, number: usize) -> Option<&Entry>
        ensures { option_copied result ≡ slice_get self.now.history.entries number }
    {
        self.entries.get(number)
    }

    /// The entries from this number on, up to the end of their piece, of which each has `PIECE_LEN`: none only where
    /// none is left.
    pub fn piece_from(&self, number: usize) -> &[Entry]
        ensures { result.now ≡ piece_from number self.now.history.entries }
    {
        self.entries.piece_from(number)
    }

    /// Makes room for one more entry.
    pub fn reserve(&mut self) -> Result<(), AllocError>
        ensures same { self.new.history ≡ self.old.history }
        ensures room { OnOk result (0 < self.new.room) }
        ensures grows { self.old.room ≤ self.new.room }
        ensures ready { 0 < self.old.room → IsOk result }
    {
        self.entries.reserve()
    }

    /// Whether the journal has as many entries as it can have.
    pub fn is_full(&self) -> bool
        ensures { result ≡ nat_le JOURNAL_LIMIT (length self.now.history.entries) }
    {
        self.entries.len() >= JOURNAL_LIMIT
    }

    /// Adds the entry at the end, where there has to be room, and returns its number.
    pub(crate) fn push(&mut self, entry: Entry) -> u32
        requires below { length self.old.history.entries < JOURNAL_LIMIT }
        requires room { 0 < self.old.room }
        ensures entry { self.new.history ≡ with_entry entry self.old.history }
        ensures number { result ≡ length self.old.history.entries }
    {
        let number = self.entries.len() as u32;
        self.memory.add(&entry);
        self.entries.push_reserved(entry);
        number
    }

    /// From now on a call is refused, as where memory is, whose entry would bring the count of the entries' memory
    /// above so many bytes.
    pub fn set_memory_limit(&mut self, limit: u64)
        ensures { self.new ≡ self.old }
    {
        self.memory.set_limit(limit);
    }

    /// How many bytes the entries count: each 320, and those of the names, owners, ids, addresses, masks and attributes
    /// of its operation, and what a WRITE writes or a READ gives.
    pub fn memory(&self) -> u64 {
        self.memory.len()
    }

    /// Whether a call was refused for the bound.
    pub fn is_out_of_memory(&self) -> bool {
        self.memory.is_full()
    }

    /// Whether the entry finds room below the bound, if there is one: each that is no call does.
    pub(crate) fn has_memory_for(&mut self, entry: &Entry) -> bool
        ensures same { self.new ≡ self.old }
        ensures no_call { IsNoCall entry.now → IsTrue result }
    {
        self.memory.has_room(entry)
    }
}
