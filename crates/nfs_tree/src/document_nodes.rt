//! Trees from their nodes, such as some document gives.

ghost use Rattle.std.specs.Prelude.{◌≡◌, ◌-◌, ◌==◌};
ghost use Rattle.std.specs.Str.{is_utf8};
ghost use Rattle.nfs_tree.specs.DocumentNodes.{are_of_a_document, can_follow, has_place, is_document_kind, is_document_name, is_on_way, parent_or_root, steps_up, tree_of_nodes};
ghost use Rattle.nfs_tree.specs.Tree.{node_at};
ghost use Rattle.nfs_tree.specs.declared.path.TheConstants.{PATH_LIMIT};
ghost use Rattle.nfs_tree.specs.declared.tree.TheConstants.{ROOT};

use crate::building::{directories_among, files_among};
use crate::path::is_name;
use crate::tree::{is_directory_among, node_among, place_of};
use crate::{
    DIRECTORY_LIMIT, FILE_LIMIT, Node, NodeKind, PATH_LIMIT, Policy, ROOT, TEXT_LIMIT, Tree,
    TreeError,
};

impl Tree {
    /// The tree with these nodes beside the root, in the order of their numbers; Syntax if they aren't those of some
    /// document. Takes no memory.
    #[tactic(auto, using(crate::proofs::DocumentNodes::nodes_are_tree))]
    pub fn from_nodes(nodes: Vec<Node>, policy: Policy) -> Result<Tree, TreeError>
        ensures { result ≡ tree_of_nodes nodes.items policy }
    {
        if !are_of_a_document(nodes.as_slice()) {
            return Err(TreeError::Syntax);
        }
        Ok(Tree { nodes, policy })
    }
}

// Whether the nodes are those of some document.
#[tactic(auto, using(crate::proofs::DocumentNodes::taken, crate::proofs::DocumentNodes::not_taken, crate::proofs::DocumentNodes::all_taken))]
fn are_of_a_document(nodes: &[Node]) -> bool
    ensures { result ≡ are_of_a_document nodes.now }
{
    if directories_among(nodes) > DIRECTORY_LIMIT || files_among(nodes) > FILE_LIMIT {
        return false;
    }
    for (place, node) in nodes.iter().enumerate() {
        if !can_follow(&nodes[..place], node) {
            return false;
        }
    }
    !is_on_way(nodes)
}

// Whether the node can come next after these in the tree of some document.
fn can_follow(before: &[Node], node: &Node) -> bool
    ensures { result ≡ can_follow before.now node.now }
{
    has_place(before, node)
        && is_document_name(node.name.as_slice())
        && is_document_kind(&node.kind)
        && (!is_on_way(before) || node.parent as usize == before.len())
}

// Whether the node's directory has a place for it.
fn has_place(before: &[Node], node: &Node) -> bool
    ensures { result ≡ has_place before.now node.now }
{
    is_directory_among(before, node.parent)
        && place_of(before, node.parent, node.name.as_slice()).is_none()
        && is_near_root(before, node.parent)
}

// Whether a node in this directory has a path of at most `PATH_LIMIT` names.
fn is_near_root(nodes: &[Node], directory: u32) -> bool
    ensures { result ≡ (steps_up nodes.now (PATH_LIMIT - 1) directory == ROOT) }
{
    let mut at = directory;
    for _ in 1..PATH_LIMIT {
        at = parent_of(nodes, at);
    }
    at == ROOT
}

// The directory that contains the node, or the root for the root.
fn parent_of(nodes: &[Node], node: u32) -> u32
    ensures { result ≡ parent_or_root (node_at nodes.now node) }
{
    match node_among(nodes, node) {
        None => ROOT,
        Some(node) => node.parent,
    }
}

fn is_document_name(name: &[u8]) -> bool
    ensures { result ≡ is_document_name name.now }
{
    is_name(name) && is_utf8(name)
}

fn is_document_kind(kind: &NodeKind) -> bool
    ensures { result ≡ is_document_kind kind.now }
{
    match kind {
        NodeKind::Directory => true,
        NodeKind::File(text) => { text.as_slice().len() <= TEXT_LIMIT && is_utf8(text.as_slice()) }
    }
}

fn is_utf8(bytes: &[u8]) -> bool
    ensures { result ≡ is_utf8 bytes.now }
{
    match str::from_utf8(bytes) {
        Ok(_) => true,
        Err(_) => false,
    }
}

// Whether the node that came last is a directory on the way to another file.
fn is_on_way(nodes: &[Node]) -> bool
    ensures { result ≡ is_on_way nodes.now }
{
    files_among(nodes) > 0 && nodes.last().is_some_and(|n| n.kind.is_directory())
}
