//! Unsigned integers of four and of eight bytes.

ghost use Rattle.std.specs.Prelude.{◌≡◌, ◌<◌, ◌^◌};
ghost use Rattle.xdr.specs.Reading.{Answers, number_at};
ghost use Rattle.xdr.specs.Writing.{Writes, written_u32, written_u64};

use crate::WireError;
use byteorder::{BigEndian, ByteOrder};

/// The number in the first four bytes, and the bytes after it; Short if there are fewer.
#[tactic(auto, unfolding(crate::specs::Reading::number_at))]
pub fn read_u32(bytes: &[u8]) -> Result<(u32, &[u8]), WireError>
    ensures { Answers (λ x. (x.0, x.1.now)) result (number_at 4 bytes.now) }
{
    if bytes.len() < 4 {
        return Err(WireError::Short);
    }
    Ok((BigEndian::read_u32(bytes), &bytes[4..]))
}

/// The number in the first eight bytes, and the bytes after it; Short if there are fewer.
#[tactic(auto, unfolding(crate::specs::Reading::number_at))]
pub fn read_u64(bytes: &[u8]) -> Result<(u64, &[u8]), WireError>
    ensures { Answers (λ x. (x.0, x.1.now)) result (number_at 8 bytes.now) }
{
    if bytes.len() < 8 {
        return Err(WireError::Short);
    }
    Ok((BigEndian::read_u64(bytes), &bytes[8..]))
}

/// Writes the number in four bytes at the end. Fails only by running out of memory, and then nothing is written.
#[tactic(auto, unfolding(crate::specs::Writing::written_number))]
pub fn write_u32(out: &mut Vec<u8>, n: u32) -> Result<(), WireError>
    ensures { Writes out.old out.new result (written_u32 n) (n < 2 ^ 32) }
{
    let mut bytes = [0; 4];
    BigEndian::write_u32(&mut bytes, n);
    out.extend_from_slice(&bytes)?;
    Ok(())
}

/// Writes the number in eight bytes at the end. Fails only by running out of memory, and then nothing is written.
#[tactic(auto, unfolding(crate::specs::Writing::written_number))]
pub fn write_u64(out: &mut Vec<u8>, n: u64) -> Result<(), WireError>
    ensures { Writes out.old out.new result (written_u64 n) (n < 2 ^ 64) }
{
    let mut bytes = [0; 8];
    BigEndian::write_u64(&mut bytes, n);
    out.extend_from_slice(&bytes)?;
    Ok(())
}
