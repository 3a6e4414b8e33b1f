//! Opaque data of fixed length.

ghost use Rattle.std.specs.Prelude.{◌≡◌};
ghost use Rattle.xdr.specs.Reading.{Answers, fixed_at};
ghost use Rattle.xdr.specs.Writing.{Writes};

use crate::WireError;

/// The first `N` bytes, and the bytes after them; Short if there are fewer.
#[tactic(auto, unfolding(crate::specs::Reading::fixed_at))]
pub fn read_fixed<const N: usize>(bytes: &[u8]) -> Result<([u8; N], &[u8]), WireError>
    ensures { Answers (λ x. (x.0, x.1.now)) result (fixed_at N bytes.now) }
{
    if bytes.len() < N {
        return Err(WireError::Short);
    }
    let mut fixed = [0; N];
    fixed.copy_from_slice(&bytes[..N]);
    Ok((fixed, &bytes[N..]))
}

/// Writes the bytes as they are at the end. Fails only by running out of memory, and then nothing is written.
pub fn write_fixed(out: &mut Vec<u8>, bytes: &[u8]) -> Result<(), WireError>
    ensures { Writes out.old out.new result bytes.now (Unit {0}) }
{
    out.extend_from_slice(bytes)?;
    Ok(())
}
