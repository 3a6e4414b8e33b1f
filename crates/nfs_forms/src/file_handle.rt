//! Filehandles, which take no memory if this server made them.

ghost use Rattle.std.specs.Prelude.{◌≡◌, ◌≤◌, length, IfOk, IsErrOf, IsOk};
ghost use Rattle.nfs_forms.specs.FileHandle as forms;
ghost use Rattle.nfs_forms.specs.FileHandle.{IsLong};
ghost use Rattle.xdr.specs.Reading.{Gives};

use smallvec::SmallVec;
use std::alloc::{AllocError, Global};
use std::marker::Model;
use xdr::{Measure, Wire, WireError, padding_of, read_opaque, write_opaque};

/// The greatest length of a filehandle in bytes (NFS4_FHSIZE).
pub const FILE_HANDLE_LIMIT: usize = 128;

/// A filehandle (nfs_fh4): up to 128 bytes that only the server interprets. Contracts see the bytes.
#[derive(Drop)]
pub struct FileHandle {
    bytes: SmallVec<u8, 16>,
}

impl Model for FileHandle {
    ghost use Rattle.std.specs.Prelude.{List, ℕ, ◌≤◌, length};
    ghost use Rattle.nfs_forms.specs.declared.file_handle.TheConstants.{FILE_HANDLE_LIMIT};

    ghost Value = { List ℕ };

    ghost view = { λ h. h.bytes.items };

    ghost invariant = { λ h. length h.bytes.items ≤ FILE_HANDLE_LIMIT };
}

impl FileHandle {
    /// A copy of these bytes. Up to 16, more than a filehandle of this server has, take no memory.
    pub fn copy_of(alloc: Global, items: &[u8]) -> Result<FileHandle, AllocError>
        requires limit { length items.now ≤ FILE_HANDLE_LIMIT }
        ensures ok { IfOk result (λ h. h ≡ items.now) }
        ensures few { length items.now ≤ 16 → IsOk result }
    {
        Ok(FileHandle {
            bytes: SmallVec::from_slice(alloc, items)?,
        })
    }

    /// The bytes.
    pub fn as_slice(&self) -> &[u8]
        ensures value { result.now ≡ self.now }
        ensures limit { length result.now ≤ FILE_HANDLE_LIMIT }
    {
        self.bytes.as_slice()
    }
}

impl PartialEq for FileHandle {
    ghost use Rattle.std.specs.Str.{bytes_eq};
    ghost use Rattle.std.specs.Cmp.Rules.{comparing};
    ghost use Rattle.std.proofs.Common.{rules};

    ghost eq = { bytes_eq };

    ghost laws = { Prim.search (comparing, rules) };

    fn eq(&self, other: &FileHandle) -> bool {
        self.as_slice() == other.as_slice()
    }
}

impl Clone for FileHandle {
    ghost is_clone = { λ x y. y ≡ x };

    fn clone(&self) -> Result<FileHandle, AllocError> {
        FileHandle::copy_of(*self.bytes.allocator(), self.as_slice())
    }
}

impl Wire for FileHandle {
    ghost form = { forms.file_handle };

    // A handle of up to 16 bytes takes no memory.
    fn read(alloc: Global, bytes: &[u8]) -> Result<(FileHandle, &[u8]), WireError>
        ensures reads { Gives (λ x. (x.0, x.1.now)) result (forms.file_handle.at bytes.now) }
        ensures few { IsErrOf result WireError.Memory → IsLong (forms.file_handle.at bytes.now) }
    {
        let (handle, rest) = read_opaque(bytes, FILE_HANDLE_LIMIT as u32)?;
        Ok((FileHandle::copy_of(alloc, handle)?, rest))
    }

    fn write(&self, out: &mut Vec<u8>) -> Result<(), WireError> {
        write_opaque(out, self.as_slice(), FILE_HANDLE_LIMIT as u32)
    }
}

impl Measure for FileHandle {
    #[tactic(auto, unfolding(xdr::specs::Writing::written_opaque, xdr::specs::Writing::written_number))]
    fn written_len(&self) -> usize {
        let len = self.bytes.len();
        4 + len + padding_of(len)
    }
}
