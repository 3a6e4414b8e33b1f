//! Hashes open owners with a key, by clientid and name.

ghost use Rattle.std.specs.Prelude.{◌≡◌};
ghost use Rattle.nfs_share.specs.KeptOpens.{hash_of_owner, space_of};
ghost use Rattle.nfs_share.specs.Opens.{owner_named};

use nfs_forms::{ClientId, OpenOwner};
use nfs_rows::OwnerSeed;

/// The keyed hash of an owner who opens files.
pub(crate) fn hash_of_owner(names: OwnerSeed, owner: &OpenOwner) -> u64
    ensures { result ≡ hash_of_owner names owner.now }
{
    hash_of_name(names, owner.client, owner.name.as_slice())
}

/// The hash of the owner with this name at this client.
pub(crate) fn hash_of_name(names: OwnerSeed, client: ClientId, name: &[u8]) -> u64
    ensures { result ≡ hash_of_owner names (owner_named client name.now) }
{
    names.hash(space_of(client), 0, name)
}

/// The epoch and the number of a client in one.
pub(crate) fn space_of(client: ClientId) -> u64
    ensures { result ≡ space_of client }
{
    u64::from(client.epoch) * (1 << 32) + u64::from(client.number)
}
