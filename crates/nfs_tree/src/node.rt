//! Nodes of a tree, and their bytes in a journal's file.

ghost use Rattle.std.specs.Prelude.{◌≡◌};
ghost use Rattle.nfs_tree.specs.NodeForm as forms;
ghost use Rattle.nfs_tree.specs.NodeForm.{kind_arm, kind_case, named_text};
ghost use Rattle.nfs_tree.specs.Tree.{is_directory_kind};
ghost use Rattle.xdr.specs.Reading.{Gives};
ghost use Rattle.xdr.specs.Switch.{case_at};
ghost use Rattle.xdr.specs.Writing.{Writes};

use crate::{NAME_LIMIT, TEXT_LIMIT};
use std::alloc::Global;
use xdr::{Bytes, Wire, WireError, read_opaque, write_opaque, write_two};

/// Whether a node is a directory or a file.
#[derive(Clone, Drop)]
pub enum NodeKind {
    Directory,
    /// A file, with the text that it has when the server starts.
    File(Bytes),
}

/// A node other than the root.
#[derive(Clone, Drop)]
pub struct Node {
    /// The number of the directory that contains it; the root has number 0.
    pub parent: u32,
    pub name: Bytes,
    pub kind: NodeKind,
}

/// An entry of a document: the tree has a node of this kind at the end of this path.
#[derive(Drop)]
pub struct TreeEntry {
    /// Names starting below the root, joined by `/`.
    pub path: Bytes,
    pub kind: NodeKind,
}

impl NodeKind {
    pub(crate) fn is_directory(&self) -> bool
        ensures { result ≡ is_directory_kind self.now }
    {
        matches!(self, NodeKind::Directory)
    }
}

impl Wire for Node {
    ghost form = { forms.node };

    #[tactic(auto, unfolding(crate::specs::NodeForm::node, crate::specs::NodeForm::named))]
    fn read(alloc: Global, bytes: &[u8]) -> Result<(Node, &[u8]), WireError> {
        let (parent, rest) = u32::read(alloc, bytes)?;
        let (is_file, rest) = bool::read(alloc, rest)?;
        let ((name, kind), rest) = read_named(alloc, is_file, rest)?;
        Ok((Node { parent, name, kind }, rest))
    }

    #[tactic(auto, unfolding(crate::specs::NodeForm::node, crate::specs::NodeForm::named))]
    fn write(&self, out: &mut Vec<u8>) -> Result<(), WireError> {
        let start = out.len();
        write_two(out, &self.parent, &!self.kind.is_directory())?;
        match write_named(out, self.name.as_slice(), &self.kind) {
            Ok(()) => Ok(()),
            Err(error) => {
                out.truncate(start);
                Err(error)
            }
        }
    }
}

// Reads a name, and a text if it is that of a file.
fn read_named(
    alloc: Global,
    is_file: bool,
    bytes: &[u8],
) -> Result<((Bytes, NodeKind), &[u8]), WireError>
    ensures { Gives (λ x. (x.0, x.1.now)) result (case_at (kind_case is_file) bytes.now) }
{
    let (name, rest) = read_opaque(bytes, NAME_LIMIT as u32)?;
    let name = Bytes::copy_of(alloc, name)?;
    if !is_file {
        return Ok(((name, NodeKind::Directory), rest));
    }
    let (text, rest) = read_opaque(rest, TEXT_LIMIT as u32)?;
    let text = Bytes::copy_of(alloc, text)?;
    Ok(((name, NodeKind::File(text)), rest))
}

// Writes a name, and a text if it is that of a file.
fn write_named(out: &mut Vec<u8>, name: &[u8], kind: &NodeKind) -> Result<(), WireError>
    ensures { Writes out.old out.new result (kind_arm (name.now, kind.now)).encoding
        (kind_arm (name.now, kind.now)).Fits }
{
    match kind {
        NodeKind::Directory => write_opaque(out, name, NAME_LIMIT as u32),
        NodeKind::File(text) => write_named_text(out, name, text.as_slice()),
    }
}

fn write_named_text(out: &mut Vec<u8>, name: &[u8], text: &[u8]) -> Result<(), WireError>
    ensures { Writes out.old out.new result (named_text.encoding (name.now, text.now))
        (named_text.Fits (name.now, text.now)) }
{
    let start = out.len();
    write_opaque(out, name, NAME_LIMIT as u32)?;
    match write_opaque(out, text, TEXT_LIMIT as u32) {
        Ok(()) => Ok(()),
        Err(error) => {
            out.truncate(start);
            Err(error)
        }
    }
}
