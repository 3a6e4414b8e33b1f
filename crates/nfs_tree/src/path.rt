//! Splits the paths of a document into names, and says which names are valid.

ghost use Rattle.std.specs.Prelude.{◌≡◌, IfOk};
ghost use Rattle.std.specs.List.{list_all};
ghost use Rattle.nfs_tree.specs.Building.{Names, PathsAreJoinedNames, names_of, pieces};
ghost use Rattle.nfs_tree.specs.Tree.{is_name, is_name_byte};

use crate::TreeError;
use std::alloc::{AllocError, Global};
use xdr::{Bytes, Sequence};

/// The greatest length of a name in bytes.
pub const NAME_LIMIT: usize = 255;

/// How many names a path can have.
pub const PATH_LIMIT: usize = 8;

/// The names of a path, 1 to `PATH_LIMIT` of them; Name if the path doesn't consist of such names, joined by `/`.
pub(crate) fn names_of(alloc: Global, path: &[u8]) -> Result<Sequence<Bytes>, TreeError>
    ensures { Names result (names_of path.now) }
{
    let pieces = pieces_of(alloc, path)?;
    if pieces.as_slice().len() <= PATH_LIMIT && are_names(pieces.as_slice()) {
        Ok(pieces)
    } else {
        Err(TreeError::Name)
    }
}

// The pieces of a path: the bytes between the slashes.
fn pieces_of(alloc: Global, path: &[u8]) -> Result<Sequence<Bytes>, AllocError>
    ensures { IfOk result (λ ps. ps ≡ pieces path.now) }
{
    let mut pieces = Vec::new(alloc);
    let mut piece = Vec::new(alloc);
    for byte in path {
        if *byte == b'/' {
            pieces.push(Bytes::new(piece))?;
            piece = Vec::new(alloc);
        } else {
            piece.push(*byte)?;
        }
    }
    pieces.push(Bytes::new(piece))?;
    Ok(Sequence::new(pieces))
}

fn are_names(pieces: &[Bytes]) -> bool
    ensures { result ≡ list_all is_name pieces.now }
{
    pieces.iter().all(|p| is_name(p.as_slice()))
}

// Whether these bytes are a valid name.
pub(crate) fn is_name(name: &[u8]) -> bool
    ensures { result ≡ is_name name.now }
{
    if name.is_empty() || name.len() > NAME_LIMIT || !has_name_bytes(name) {
        return false;
    }
    name != b".".as_slice() && name != b"..".as_slice()
}

fn has_name_bytes(name: &[u8]) -> bool
    ensures { result ≡ list_all is_name_byte name.now }
{
    name.iter().all(|b| *b != 0 && *b != b'/')
}

/// The law that the names of a path are exactly those that give the path when they are joined by `/`.
pub fn paths_are_joined_names()
    ensures { PathsAreJoinedNames }
{}
