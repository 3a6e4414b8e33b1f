//! The journal that was read from a file, before an audit has said whether it is lawful.

use crate::Opening;
use nfs_state::Entry;
use nfs_tree::Tree;
use std::marker::Model;

/// The journal that a file has: what the server began with, and the entries in order.
#[derive(Drop)]
pub struct FiledJournal {
    pub(crate) opening: Opening,
    pub(crate) tree: Tree,
    pub(crate) entries: Vec<Entry>,
}

impl Model for FiledJournal {
    ghost use Rattle.std.specs.Prelude.{◌≤◌};
    ghost use Rattle.nfs_journal.specs.File.{start_of};
    ghost use Rattle.nfs_state.specs.State.{History};
    ghost use Rattle.nfs_state.specs.declared.journal.TheConstants.{LEASE_MIN, LEASE_MAX};

    ghost Value = { History };

    ghost view = { λ j. record {
      nodes = j.tree.nodes;
      epoch = (start_of j.opening).epoch;
      lease = (start_of j.opening).lease;
      policy = (start_of j.opening).policy;
      entries = j.entries.items;
    } };

    ghost invariant = { λ j. (LEASE_MIN ≤ (start_of j.opening).lease)
        × ((start_of j.opening).lease ≤ LEASE_MAX) };
}
