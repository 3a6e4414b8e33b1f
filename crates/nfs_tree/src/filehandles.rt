//! The current and the saved filehandle of a COMPOUND, as nodes.

ghost use Rattle.std.specs.Prelude.{◌≡◌, ◌<◌, IfSome, option_map};
ghost use Rattle.nfs_tree.specs.Filehandles.{AreNodes, claimed_name, handles_after, no_filehandles, object_named};
ghost use Rattle.nfs_tree.specs.Tree.{node_count};

use crate::Tree;
use nfs_xdr::{Claim, Op};

/// The nodes of the current and the saved filehandle (RFC 7530, section 15.2). Each is absent until an operation of the
/// COMPOUND sets it.
#[derive(Clone, Copy)]
pub struct Filehandles {
    pub current: Option<u32>,
    pub saved: Option<u32>,
}

impl Filehandles {
    /// Both filehandles absent, as at the beginning of a COMPOUND.
    pub fn new() -> Filehandles
        ensures { result ≡ no_filehandles }
    {
        Filehandles {
            current: None,
            saved: None,
        }
    }

    /// Follows an operation on the state that was answered NFS4_OK. After an OPEN (RFC 7530, section 16.16) the object
    /// that its name names in the current directory becomes the current one; other operations change nothing.
    pub fn follow(&mut self, tree: &Tree, op: &Op)
        requires nodes { AreNodes tree.now self.old }
        ensures handles { self.new ≡ handles_after tree.now.nodes self.old op.now }
        ensures nodes { AreNodes tree.now self.new }
    {
        let Op::Open(open) = op else {
            return;
        };
        if let Some(object) = claimed_object(tree, self.current, &open.claim) {
            self.current = Some(object);
        }
    }
}

// The object that the name in the claim names in this node.
fn claimed_object(tree: &Tree, node: Option<u32>, claim: &Claim) -> Option<u32>
    ensures object { result ≡ object_named tree.now.nodes node (claimed_name claim.now) }
    ensures within { IfSome result (λ n. n < node_count tree.now.nodes) }
{
    tree.resolve(node?, claimed_name(claim)?).ok()
}

// The name in the claim, if it has one.
fn claimed_name(claim: &Claim) -> Option<&[u8]>
    ensures { option_map (λ n. n.now) result ≡ claimed_name claim.now }
{
    match claim {
        Claim::Null(name) | Claim::DelegateCur { name, .. } | Claim::DelegatePrev(name) => {
            Some(name.as_slice())
        }
        Claim::Previous(_) => None,
    }
}
