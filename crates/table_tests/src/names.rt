//! The names of owners and clients.

use std::alloc::{AllocError, Global};
use xdr::Opaque;

/// A name of these bytes, of which there have to be few.
pub(crate) fn name_of<const LIMIT: u32>(
    alloc: Global,
    name: &[u8],
) -> Result<Opaque<LIMIT>, AllocError> {
    match Opaque::copy_of(alloc, name) {
        Ok(name) => Ok(name),
        Err(_) => Err(AllocError),
    }
}
