//! Booleans.

ghost use Rattle.std.specs.Prelude.{◌≡◌};
ghost use Rattle.xdr.specs.Reading.{Answers, flag_at};
ghost use Rattle.xdr.specs.Writing.{Writes, written_flag};

use crate::WireError;
use crate::basic::{read_u32, write_u32};

/// The bool at the front, a number that is 0 or 1, and the bytes after it; otherwise Short.
#[tactic(auto, unfolding(crate::specs::Reading::flag_at))]
pub fn read_flag(bytes: &[u8]) -> Result<(bool, &[u8]), WireError>
    ensures { Answers (λ x. (x.0, x.1.now)) result (flag_at bytes.now) }
{
    let (n, rest) = read_u32(bytes)?;
    match n {
        0 => Ok((false, rest)),
        1 => Ok((true, rest)),
        _ => Err(WireError::Short),
    }
}

/// Writes the bool as 1 or 0 at the end. Fails only by running out of memory, and then nothing is written.
pub fn write_flag(out: &mut Vec<u8>, flag: bool) -> Result<(), WireError>
    ensures { Writes out.old out.new result (written_flag flag) (Unit {0}) }
{
    write_u32(out, if flag { 1 } else { 0 })
}
