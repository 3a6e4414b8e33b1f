//! Makes a tree of a TOML document, or says which entry of the document is wrong.

ghost use Rattle.std.specs.Prelude.{◌≡◌, ◌≤◌, ◌<◌, ◌+◌, ◌^◌, IfErr, IfOk, OnOk, Ok, if◌then◌else◌, length};
ghost use Rattle.nfs_tree.specs.declared.node.NodeKind.TheVariants.{Directory};
ghost use Rattle.nfs_tree.specs.Building.{FailsToMake, Makes, add_entry, chain, is_too_many, tree_of, way};
ghost use Rattle.nfs_tree.specs.Leads.{TreesAreTheirEntries};
ghost use Rattle.nfs_tree.specs.Tree.{directories, files};

use crate::document::read_document;
use crate::path::names_of;
use crate::{
    DIRECTORY_LIMIT, FILE_LIMIT, Node, NodeKind, PATH_LIMIT, TEXT_LIMIT, Tree, TreeEntry, TreeError,
};
use std::alloc::{AllocError, Global};
use xdr::Bytes;

/// The document that describes the tree of a server that is given no other.
pub const DEFAULT_TREE: &str = "[[file]]
path = \"a\"
text = \"hello\"
[[file]]
path = \"b\"
[[file]]
path = \"d/c\"
";

impl Tree {
    /// The tree of a TOML document. Its keys are `directory`, an array of tables with a `path`; `file`, an array of
    /// tables with a `path` and an optional `text`; and `policy`, a table with the optional keys `delegations` ("none",
    /// "read", or "all", the default), `callbacks` ("probe", the default, or "assume"), `close_locks` ("free", the
    /// default, or "refuse") and `profile` ("plain", the default, or "clients").
    ///
    /// Syntax if the text isn't such a document. Otherwise the first entry that can't be added decides, where
    /// directories come before files: Name if its path isn't 1 to `PATH_LIMIT` names; TooMany if its text, the files or
    /// the directories would exceed their limit; Duplicate if a file's path is already there, a directory's path is
    /// that of a file, or a file is on the way.
    pub fn from_toml(alloc: Global, text: &str) -> Result<Tree, TreeError>
        ensures { Makes result (tree_of text.now) }
    {
        let document = read_document(alloc, text)?;
        let mut tree = Tree {
            nodes: Vec::new(alloc),
            policy: document.policy,
        };
        for entry in document.entries.as_slice() {
            tree.add(alloc, entry)?;
        }
        Ok(tree)
    }

    // Adds an entry to the tree.
    fn add(&mut self, alloc: Global, entry: &TreeEntry) -> Result<(), TreeError>
        ensures ok { OnOk result (add_entry self.old entry.now ≡ Ok self.new) }
        ensures err { IfErr result (λ e. FailsToMake e (add_entry self.old entry.now)) }
    {
        let names = names_of(alloc, entry.path.as_slice())?;
        let (end, missing) = self.way(names.as_slice());
        if self.is_too_many(&entry.kind, missing.len()) {
            return Err(TreeError::TooMany);
        }
        if !self.is_directory(end) || (missing.is_empty() && !entry.kind.is_directory()) {
            return Err(TreeError::Duplicate);
        }
        let mut chain = chain_of(alloc, end, self.len(), missing, &entry.kind)?;
        self.nodes.append(&mut chain)?;
        Ok(())
    }

    // How far these names lead from the root, and which of them are missing.
    fn way<'a>(&self, names: &'a [Bytes]) -> (u32, &'a [Bytes])
        ensures way { way self.now.nodes 0 names.now
            ≡ record { end = result.0; missing = result.1.now } }
        ensures few { length result.1.now ≤ length names.now }
    {
        let mut end = 0;
        for (found, name) in names.iter().enumerate() {
            match self.lookup(end, name.as_slice()) {
                Some(node) => end = node,
                None => return (end, &names[found..]),
            }
        }
        (end, &[])
    }

    // Whether a limit would be exceeded by an entry of this kind, if `missing` names of its path are missing.
    fn is_too_many(&self, kind: &NodeKind, missing: usize) -> bool
        requires { missing ≤ PATH_LIMIT }
        ensures { result ≡ is_too_many self.now.nodes kind.now missing }
    {
        match kind {
            NodeKind::Directory => self.directories() + missing > DIRECTORY_LIMIT,
            NodeKind::File(text) => {
                text.as_slice().len() > TEXT_LIMIT
                    || files_among(self.nodes()) >= FILE_LIMIT
                    || self.directories() + missing.saturating_sub(1) > DIRECTORY_LIMIT
            }
        }
    }

    fn directories(&self) -> usize
        ensures count { result ≡ directories self.now.nodes }
        ensures few { result ≤ DIRECTORY_LIMIT }
    {
        directories_among(self.nodes.as_slice())
    }
}

pub(crate) fn directories_among(nodes: &[Node]) -> usize
    ensures { result ≡ directories nodes.now }
{
    nodes.iter().filter(|n| n.kind.is_directory()).count()
}

pub(crate) fn files_among(nodes: &[Node]) -> usize
    ensures { result ≡ files nodes.now }
{
    nodes.iter().filter(|n| !n.kind.is_directory()).count()
}

// A node for each of these names, numbered from `number` on: the first in `parent`, and each other in the one before.
fn chain_of(
    alloc: Global,
    parent: u32,
    number: u32,
    names: &[Bytes],
    kind: &NodeKind,
) -> Result<Vec<Node>, AllocError>
    requires { number + length names.now < 2 ^ 32 }
    ensures { IfOk result (λ nodes. nodes.items ≡ chain parent number names.now kind.now) }
{
    let mut nodes = Vec::with_capacity(alloc, names.len())?;
    let mut parent = parent;
    let mut number = number;
    for (place, name) in names.iter().enumerate() {
        nodes.push(Node {
            parent,
            name: name.clone()?,
            kind: kind_at(kind, place + 1 == names.len())?,
        })?;
        parent = number;
        number += 1;
    }
    Ok(nodes)
}

// The kind of a node in a chain, which depends on whether it is the last one.
fn kind_at(kind: &NodeKind, is_last: bool) -> Result<NodeKind, AllocError>
    ensures { IfOk result (λ k. k ≡ (if is_last then kind.now else Directory)) }
{
    if is_last {
        kind.clone()
    } else {
        Ok(NodeKind::Directory)
    }
}

/// The law that the tree of a text is that of the entries of its document: the names of each entry's path lead from the
/// root to a node of the entry's kind, with its text; every other node is a directory on the way to one; only one way
/// leads to each node; and two entries with the same path are both directories.
pub fn trees_are_their_entries()
    ensures { TreesAreTheirEntries }
{}
