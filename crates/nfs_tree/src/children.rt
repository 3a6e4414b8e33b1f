//! What READDIR asks of a tree: the children of a directory, in order, by cookies.

ghost use Rattle.std.specs.Prelude.{◌≡◌, ◌≤◌, ◌-◌, ◌++◌, IfOk, OnOk, length};
ghost use Rattle.std.specs.Option.{option_copied};
ghost use Rattle.nfs_tree.specs.Children.{children_after, cookie_of, is_cookie, listed, listed_from, name_of};
ghost use Rattle.nfs_tree.specs.Tree.{node_at};

use crate::tree::node_among;
use crate::{NAME_LIMIT, Node, Tree};
use std::alloc::{AllocError, Global};

impl Tree {
    /// The children of a directory behind a cookie, in the order of a listing (RFC 7530, section 16.24).
    pub fn children_after(
        &self,
        alloc: Global,
        directory: u32,
        cookie: u64,
    ) -> Result<Vec<u32>, AllocError>
        ensures { IfOk result (λ v. v.items ≡ children_after self.now.nodes directory cookie) }
    {
        let children = children_among(alloc, self.nodes.as_slice(), directory, cookie)?;
        Ok(children)
    }

    /// The cookie of a child: its number, and two more.
    pub fn cookie_of(node: u32) -> u64
        ensures { result ≡ cookie_of node }
    {
        u64::from(node) + 2
    }

    /// Whether a cookie is 0 or that of a child of this directory.
    pub fn is_cookie(&self, directory: u32, cookie: u64) -> bool
        ensures { result ≡ is_cookie self.now.nodes directory cookie }
    {
        if cookie == 0 {
            return true;
        }
        match self.node_of_cookie(cookie) {
            Some(node) => node.parent == directory,
            None => false,
        }
    }

    // The node that has a cookie, if there is one other than the root.
    fn node_of_cookie(&self, cookie: u64) -> Option<&Node>
        ensures { option_copied result ≡ node_at self.now.nodes (cookie - 2) }
    {
        let place = cookie.checked_sub(3)?;
        self.nodes.get(place as usize)
    }

    /// The name of a node; the root has none.
    pub fn name(&self, node: u32) -> &[u8]
        ensures name { result.now ≡ name_of self.now.nodes node }
        ensures short { length result.now ≤ NAME_LIMIT }
    {
        match node_among(self.nodes.as_slice(), node) {
            Some(node) => node.name.as_slice(),
            None => &[],
        }
    }
}

// The children of a directory behind a cookie, among these nodes.
fn children_among(
    alloc: Global,
    nodes: &[Node],
    directory: u32,
    cookie: u64,
) -> Result<Vec<u32>, AllocError>
    requires { length nodes.now ≤ 128 }
    ensures { IfOk result (λ v. v.items ≡ listed_from 1 nodes.now directory cookie) }
{
    let mut children = Vec::new(alloc);
    let mut number = 1;
    for node in nodes {
        add_child(&mut children, number, node, directory, cookie)?;
        number += 1;
    }
    Ok(children)
}

// Adds the number of a node that is such a child.
fn add_child(
    children: &mut Vec<u32>,
    number: u32,
    node: &Node,
    directory: u32,
    cookie: u64,
) -> Result<(), AllocError>
    ensures { OnOk result (children.new.items
        ≡ children.old.items ++ listed number node.now directory cookie) }
{
    if node.parent != directory || cookie >= Tree::cookie_of(number) {
        return Ok(());
    }
    children.push(number)?;
    Ok(())
}
