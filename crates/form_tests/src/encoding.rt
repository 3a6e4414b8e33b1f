//! Values with the words that they are encoded as.

use std::alloc::{AllocError, Global};
use std::test::Fail;
use xdr::{Wire, WireError};

/// The words, big-endian.
fn bytes_of(alloc: Global, words: &[u32]) -> Result<Vec<u8>, AllocError> {
    let mut bytes = Vec::new(alloc);
    for word in words {
        bytes.extend_from_slice(&word.to_be_bytes())?;
    }
    Ok(bytes)
}

/// Whether the value is encoded as these words, and they are read as a value that is encoded so, too.
pub fn is_encoded_as<T: Wire>(alloc: Global, value: &T, words: &[u32]) -> Result<bool, Fail> {
    let bytes = bytes_of(alloc, words)?;
    let mut written = Vec::new(alloc);
    value.write(&mut written)?;
    let (value_read, rest) = T::read(alloc, bytes.as_slice())?;
    let mut written_again = Vec::new(alloc);
    value_read.write(&mut written_again)?;
    let is_same = written == bytes && written_again == bytes;
    Ok(is_same && rest.is_empty())
}

/// Whether these words can't be read, because they aren't such a value.
pub fn is_unreadable<T: Wire>(alloc: Global, words: &[u32]) -> Result<bool, Fail> {
    let bytes = bytes_of(alloc, words)?;
    Ok(matches!(T::read(alloc, bytes.as_slice()), Err(WireError::Short)))
}
