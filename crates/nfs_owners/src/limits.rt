//! States the limits on clients and owners as a law, so that a wrong constant fails the proof.

ghost use Rattle.std.specs.Prelude.{◌≡◌, ◌^◌};

use crate::client_callback::ADDRESS_LIMIT;
use crate::owner::OWNER_LIMIT;
use crate::slots::{GENERATIONS, SLOTS};

/// The limits in the rules: on the slots of clients' numbers and their generations, the bytes of an r_netid or r_addr,
/// and the owners that are known at a time.
pub fn limits_of_owners()
    ensures clients { (SLOTS ≡ 256) × (GENERATIONS ≡ 2 ^ 24) × (ADDRESS_LIMIT ≡ 128) }
    ensures owners { OWNER_LIMIT ≡ 16384 }
{}
