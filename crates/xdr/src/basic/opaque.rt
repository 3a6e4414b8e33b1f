//! Opaque data of variable length, with its padding.

ghost use Rattle.std.specs.Prelude.{◌≡◌, ◌<◌, ◌≤◌, ◌^◌, length, IfOk, IsErrOf, IsOk};
ghost use Rattle.xdr.specs.Layout as layout;
ghost use Rattle.xdr.specs.Reading.{Answers, Gives, opaque_at};
ghost use Rattle.xdr.specs.Writing.{Writes, written_opaque};

use crate::basic::{read_u32, write_u32};
use crate::{Opaque, WireError};
use std::alloc::Global;

/// How many bytes of padding follow `len` bytes, to a multiple of 4.
pub fn padding_of(len: usize) -> usize
    ensures value { result ≡ layout.padding_of len }
    ensures few { result < 4 }
{
    (4 - len % 4) % 4
}

/// The bytes that follow their length at the front, borrowed, and the bytes after their padding. TooLong if the length
/// is above `limit`, Short if bytes are missing, even if only some of the padding.
#[tactic(auto, unfolding(crate::specs::Reading::opaque_at))]
pub fn read_opaque(bytes: &[u8], limit: u32) -> Result<(&[u8], &[u8]), WireError>
    ensures reads { Answers (λ x. (x.0.now, x.1.now)) result (opaque_at limit bytes.now) }
    ensures within { IfOk result (λ x. length x.0.now ≤ limit) }
{
    let (len, rest) = read_u32(bytes)?;
    if len > limit {
        return Err(WireError::TooLong);
    }
    let len = len as usize;
    let padded = len + padding_of(len);
    if rest.len() < padded {
        return Err(WireError::Short);
    }
    Ok((&rest[..len], &rest[padded..]))
}

/// The bytes that follow their length at the front, as an owned value, and the bytes after their padding. TooLong if
/// the length is above `LIMIT`, Short if bytes are missing, even if only some of the padding.
pub fn read_opaque_bytes<const LIMIT: u32>(
    alloc: Global,
    bytes: &[u8],
) -> Result<(Opaque<LIMIT>, &[u8]), WireError>
    ensures reads { Gives (λ x. (x.0, x.1.now)) result (opaque_at LIMIT bytes.now) }
    // Memory is reported only if all the bytes are there.
    ensures memory { IsErrOf result WireError.Memory → IsOk (opaque_at LIMIT bytes.now) }
{
    let (value, rest) = read_opaque(bytes, LIMIT)?;
    Ok((Opaque::copy_of(alloc, value)?, rest))
}

/// Writes the length, the bytes, and zeros up to a multiple of 4 at the end. TooLong above `limit` bytes.
#[tactic(auto, unfolding(crate::specs::Writing::written_opaque, crate::specs::Writing::written_number))]
pub fn write_opaque(out: &mut Vec<u8>, bytes: &[u8], limit: u32) -> Result<(), WireError>
    ensures writes { Writes out.old out.new result (written_opaque bytes.now)
        (length bytes.now ≤ limit) }
    ensures too_long { limit < length bytes.now → result ≡ Err WireError.TooLong }
{
    let Ok(len) = u32::try_from(bytes.len()) else {
        return Err(WireError::TooLong);
    };
    if len > limit {
        return Err(WireError::TooLong);
    }
    let padding = padding_of(bytes.len());
    out.reserve(4 + bytes.len() + padding)?;
    write_u32(out, len)?;
    out.extend_from_slice(bytes)?;
    out.extend_from_slice(&[0; 4][..padding])?;
    Ok(())
}
