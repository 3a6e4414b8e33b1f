//! Changes of a file's bytes, by WRITE and SETATTR.

ghost use Rattle.std.specs.Prelude.{◌≡◌, ◌↔◌, ◌≤◌, IfOk, IsTrue};
ghost use Rattle.nfs_state.specs.FileChange.{change_seen, end_of};
ghost use Rattle.nfs_tree.specs.declared.tree.TheConstants.{TEXT_LIMIT};

use std::alloc::AllocError;
use xdr::SharedBytes;

/// A change of a file's bytes.
#[derive(Drop)]
pub(crate) enum FileChange {
    /// WRITE of the block at this offset (RFC 7530, section 16.36).
    Writes { offset: usize, block: SharedBytes },
    /// The file gets this size (section 16.32): the bytes behind it go, and zeros come where there are fewer.
    Cuts { size: usize },
}

/// A change of a file's bytes whose block is lent.
#[derive(Clone, Copy)]
pub(crate) enum FileChangeRef<'a> {
    Writes {
        offset: usize,
        block: &'a SharedBytes,
    },
    Cuts {
        size: usize,
    },
}

impl FileChange {
    /// Whether the change is the other one.
    pub(crate) fn is(&self, other: FileChangeRef<'_>) -> bool
        ensures { IsTrue result ↔ (self.now ≡ change_seen other.entry) }
    {
        match (self, other) {
            (
                FileChange::Writes { offset, block },
                FileChangeRef::Writes {
                    offset: at,
                    block: bytes,
                },
            ) => *offset == at && *block == *bytes,
            (FileChange::Cuts { size }, FileChangeRef::Cuts { size: other }) => *size == other,
            _ => false,
        }
    }
}

impl FileChangeRef<'_> {
    /// Where the bytes end that the change speaks of.
    pub(crate) fn end(self) -> usize
        requires { end_of (change_seen self) ≤ TEXT_LIMIT }
        ensures { result ≡ end_of (change_seen self.entry) }
    {
        match self {
            FileChangeRef::Writes { offset, block } => offset + block.as_slice().len(),
            FileChangeRef::Cuts { size } => size,
        }
    }

    /// The change with a block of its own, which shares the bytes of the one that is lent.
    pub(crate) fn to_owned(self) -> Result<FileChange, AllocError>
        ensures { IfOk result (λ change. change ≡ change_seen self.entry) }
    {
        match self {
            FileChangeRef::Writes { offset, block } => Ok(FileChange::Writes {
                offset,
                block: block.clone()?,
            }),
            FileChangeRef::Cuts { size } => Ok(FileChange::Cuts { size }),
        }
    }
}
