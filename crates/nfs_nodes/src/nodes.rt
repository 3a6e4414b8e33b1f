//! An index from the number in a stateid to the node of its file, so that no lookup walks over all files.

ghost use Rattle.std.specs.Prelude.{◌≡◌, ◌<◌, ◌≤◌, ◌/◌, ◌&&◌, [], IsOk, None, OnOk, Some, length, nat_eq, nat_lt, slice_get};
ghost use Rattle.nfs_nodes.specs.Nodes.{Forgets, HasAt, node_of};

use indexmap::IndexMap;
use std::alloc::{AllocError, Global};
use std::marker::Model;

/// From the numbers of states to the nodes of their files. The numbers are given by the server, so no seed is needed.
#[derive(Drop)]
pub struct Nodes {
    nodes: IndexMap<u32, u32>,
}

impl Model for Nodes {
    ghost use Rattle.indexmap.specs.IndexMap.{spare};
    ghost use Rattle.nfs_nodes.specs.Nodes.{RoomyNodes};

    ghost Value = { RoomyNodes };

    ghost view = { λ n. record { entries = n.nodes.entries; room = spare n.nodes } };
}

impl Nodes {
    /// No numbers, taking no memory.
    pub fn new(alloc: Global) -> Nodes
        ensures { result.entries ≡ [] }
    {
        Nodes {
            nodes: IndexMap::new(alloc),
        }
    }

    /// The node of this number, if there is one.
    pub fn find(&self, number: u32) -> Option<u32>
        ensures { result ≡ node_of number self.now }
    {
        self.nodes.get(&number).copied()
    }

    /// How many numbers there are.
    pub fn len(&self) -> usize
        ensures { result ≡ length self.now.entries }
    {
        self.nodes.len()
    }

    /// A number with its node, at each place below the length.
    pub fn at(&self, place: usize) -> Option<(u32, u32)>
        ensures { result ≡ slice_get self.now.entries place }
    {
        let (number, node) = self.nodes.get_index(place)?;
        Some((*number, *node))
    }

    /// Whether there is no room, and fewer than half of the numbers are those of so many states.
    pub fn is_full_of_others(&self, states: usize) -> bool
        ensures { result
            ≡ (nat_eq self.now.room 0 && nat_lt states (length self.now.entries / 2)) }
    {
        let len = self.nodes.len();
        self.nodes.capacity() == len && states < len / 2
    }

    /// Makes room, so that the next number takes no memory.
    pub fn reserve(&mut self) -> Result<(), AllocError>
        ensures entries { self.new.entries ≡ self.old.entries }
        ensures room { OnOk result (0 < self.new.room) }
        ensures grows { self.old.room ≤ self.new.room }
        ensures ready { 0 < self.old.room → IsOk result }
    {
        self.nodes.reserve(1)
    }

    /// Puts the number at the node. It takes no memory.
    pub fn add(&mut self, number: u32, node: u32)
        requires { 0 < self.old.room }
        ensures { HasAt number (Some node) self.old self.new }
    {
        let _added = self.nodes.insert(number, node);
    }

    /// Removes the number, if it is at the node.
    pub fn remove(&mut self, number: u32, node: u32)
        ensures nodes { Forgets number node self.old self.new }
        ensures gone { node_of number self.old ≡ Some node → node_of number self.new ≡ None }
        ensures room { self.old.room ≤ self.new.room }
    {
        if self.find(number) == Some(node) {
            self.nodes.swap_remove(&number);
        }
    }
}
