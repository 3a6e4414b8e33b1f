//! Hashes lock owners with a key, by clientid and name.

ghost use Rattle.std.specs.Prelude.{◌≡◌, ◌+◌, ◌*◌, ◌^◌};
ghost use Rattle.nfs_locks.specs.KeptLocks.{owner_hash};

use nfs_forms::LockOwner;
use nfs_rows::OwnerSeed;

/// The keyed hash of a lock owner.
pub(crate) fn owner_hash(names: OwnerSeed, owner: &LockOwner) -> u64
    ensures { result ≡ owner_hash names owner.now }
{
    let client = client_number(owner.client.epoch, owner.client.number);
    names.hash(client, 0, owner.name.as_slice())
}

// The number of the clientid of these two parts.
fn client_number(epoch: u32, number: u32) -> u64
    ensures { result ≡ epoch * 2 ^ 32 + number }
{
    u64::from(epoch) * 0x1_0000_0000 + u64::from(number)
}
