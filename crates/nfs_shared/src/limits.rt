//! States the room of the queue of recalls as a law, so that a wrong constant fails the proof.

ghost use Rattle.std.specs.Prelude.{◌≡◌};

use crate::recall_queue::CAPACITY;

/// The room of the queue of recalls.
pub fn limit_of_queue()
    ensures { CAPACITY ≡ 1024 }
{}
