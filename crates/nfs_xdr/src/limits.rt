//! States the limit on a COMPOUND's operations as a law, so that a wrong constant fails the proof.

ghost use Rattle.std.specs.Prelude.{◌≡◌};

use crate::compound::OPERATION_LIMIT;

/// This server's limit on the number of operations in a COMPOUND.
pub fn limit_of_compounds()
    ensures { OPERATION_LIMIT ≡ 64 }
{}
