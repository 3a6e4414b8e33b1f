//! Numbers of which one value alone is accepted, such as the type of a message.

ghost use Rattle.std.specs.Prelude.{◌≡◌};
ghost use Rattle.xdr.specs.Reading.{Answers, constant_at};

use crate::WireError;
use crate::basic::read_u32;

/// Reads a number that always has this value, and returns the bytes after it. Short if there is another number, or
/// none.
#[tactic(auto, unfolding(crate::specs::Reading::constant_at))]
pub fn read_constant(bytes: &[u8], number: u32) -> Result<((), &[u8]), WireError>
    ensures { Answers (λ x. (x.0, x.1.now)) result (constant_at number bytes.now) }
{
    let (found, rest) = read_u32(bytes)?;
    if found != number {
        return Err(WireError::Short);
    }
    Ok(((), rest))
}
