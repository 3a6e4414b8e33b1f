//! States the limits on a connection as a law, so that a wrong constant fails the proof.

ghost use Rattle.std.specs.Prelude.{◌≡◌, ◌^◌};

use crate::connection::STREAM_LIMIT;
use crate::replies::{BATCH_QUESTIONS, BATCH_RECORDS, GATHER_LIMIT};

/// The limits in the rules of a connection: how many bytes its input may have; and how many records and questions a
/// batch may have, which doesn't go on once more bytes of replies wait than the last limit says.
pub fn limits_of_connections()
    ensures input { STREAM_LIMIT ≡ 2 ^ 40 }
    ensures batch { (BATCH_RECORDS ≡ 16) × (BATCH_QUESTIONS ≡ 64) × (GATHER_LIMIT ≡ 262140) }
{}
