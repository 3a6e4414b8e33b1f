//! States the limit on a client's id as a law, so that a wrong constant fails the proof.

ghost use Rattle.std.specs.Prelude.{◌≡◌};

use crate::setclientid::ID_LIMIT;

/// The limit of a client's id (NFS4_OPAQUE_LIMIT; RFC 7531).
pub fn limit_of_ids()
    ensures { ID_LIMIT ≡ 1024 }
{}
