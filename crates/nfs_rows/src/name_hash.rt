//! Keyed hashes of names, so that no client can choose names whose hashes collide.

ghost use Rattle.std.specs.Prelude.{◌≡◌};
ghost use Rattle.nfs_rows.specs.NameHash.{hash_of};

use std::hash::{BuildHasher, Hasher, RandomState};

/// A keyed hash of a name in a space of names, so that who chooses names can't make hashes meet. The space is a number
/// and a kind, which make one word.
#[tactic(auto, unfolding(crate::specs::NameHash::hash_of))]
pub(crate) fn hash_of(seed: RandomState, space: u64, kind: u8, name: &[u8]) -> u64
    ensures { result ≡ hash_of seed space kind name.now }
{
    let word = space.rotate_left(8) ^ u64::from(kind);
    let mut hasher = seed.build_hasher();
    hasher.write(&word.to_le_bytes());
    hasher.write(name);
    hasher.finish()
}
