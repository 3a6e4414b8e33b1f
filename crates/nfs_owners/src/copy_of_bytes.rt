//! Copies bytes whose length was checked before, so that only memory can be lacking.

ghost use Rattle.std.specs.Prelude.{◌≡◌, ◌≤◌, IfOk, length};

use std::alloc::{AllocError, Global};
use xdr::{Opaque, WireError};

/// A copy of these bytes, of which there are no more than the limit allows.
pub(crate) fn copy_of_bytes<const LIMIT: u32>(
    alloc: Global,
    bytes: &[u8],
) -> Result<Opaque<LIMIT>, AllocError>
    requires { length bytes.now ≤ LIMIT }
    ensures { IfOk result (λ copy. copy ≡ bytes.now) }
{
    match Opaque::copy_of(alloc, bytes) {
        Ok(copy) => Ok(copy),
        Err(WireError::Memory) => Err(AllocError),
        Err(_) => unreachable!(),
    }
}
