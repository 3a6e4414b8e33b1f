//! Makes what a run of `nfs4state` begins with: the tree of files, a core with random seeds, and the journal's file.

ghost use Rattle.std.specs.Prelude.{◌≡◌, ◌≤◌, [], IfOk, IfSome};
ghost use Rattle.nfs_owners.specs.Registry.{no_clients};

use crate::files_read::read_tree_file;
use crate::new_file::NewFile;
use crate::told::Told;
use crate::tree_reason::tell_refused_tree;
use nfs_core::{Core, LEASE_MAX, LEASE_MIN, Seeds};
use nfs_program::{Fault, read_tree};
use nfs_server::Counted;
use nfs_tree::{DEFAULT_TREE, Tree, TreeError};
use std::io::Eprint;

/// The journal's file, whose failures are told and counted.
pub(crate) type JournalFile<'r, 'p, E> = Counted<Told<'p, E, NewFile<'r, 'p>>>;

/// The journal's file, which isn't touched yet, if there is to be one. What is wrong with it goes to `errors`.
pub(crate) fn journal_file<'r, 'p, E: Eprint + Drop>(
    rt: &'r HostRuntime,
    path: Option<&'p str>,
    errors: E,
) -> Option<JournalFile<'r, 'p, E>>
    ensures { IfSome result (λ file. file.failures ≡ 0) }
{
    match path {
        Some(path) => Some(Counted::new(Told::new(errors, path, NewFile::new(rt, path)))),
        None => None,
    }
}

/// A core for the tree, with the tree's policy and random seeds.
pub(crate) fn core_of(rt: &HostRuntime, tree: &Tree, lease: u32, epoch: u32) -> Result<Core, Fault>
    requires lease { (LEASE_MIN ≤ lease) × (lease ≤ LEASE_MAX) }
    ensures journal { IfOk result (λ core. core.journal ≡ record {
      nodes = tree.now.nodes;
      epoch = epoch;
      lease = lease;
      policy = tree.now.policy;
      entries = [];
    }) }
    ensures clients { IfOk result (λ core. core.stored.clients ≡ no_clients) }
{
    let seeds = Seeds::new(rt)?;
    let Ok(core) = Core::new(rt.alloc(), tree, lease, epoch, tree.policy(), seeds) else {
        return Err(Fault::NoMemory);
    };
    Ok(core)
}

/// The tree that the file describes, or the default tree if no file is given. Why it can't be had is told by a line.
pub(crate) fn tree(rt: &HostRuntime, path: Option<&str>) -> Result<Tree, Fault> {
    let Some(path) = path else {
        return Tree::from_toml(rt.alloc(), DEFAULT_TREE).map_err(Fault::from);
    };
    let bytes = read_tree_file(rt, path)?;
    match read_tree(rt.alloc(), bytes.as_slice()) {
        Ok(tree) => Ok(tree),
        Err(TreeError::Memory) => Err(Fault::from(TreeError::Memory)),
        Err(refused) => {
            tell_refused_tree(rt.alloc(), rt, path, bytes.as_slice(), refused);
            Err(Fault::from(refused))
        }
    }
}
