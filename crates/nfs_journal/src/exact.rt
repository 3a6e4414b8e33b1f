//! Reads a value that takes up all bytes, and refuses any other encoding of the value.

ghost use Rattle.nfs_journal.specs.Exact.{IsExactly};

use std::alloc::Global;
use xdr::{Wire, WireError};

/// The value of which all of these bytes are the encoding. If there is none, as where some padding isn't zero, the
/// error is Short or TooLong.
pub(crate) fn read_exact<T: Wire>(alloc: Global, bytes: &[u8]) -> Result<T, WireError>
    ensures { IsExactly T.form result bytes.now }
{
    let (value, _) = match T::read(alloc, bytes) {
        Ok(read) => read,
        Err(error) => return Err(error),
    };
    let Ok(mut again) = Vec::with_capacity(alloc, bytes.len()) else {
        return Err(WireError::Memory);
    };
    match value.write(&mut again) {
        Ok(()) => {}
        Err(error) => return Err(error),
    }
    if again.as_slice() == bytes {
        Ok(value)
    } else {
        Err(WireError::Short)
    }
}
