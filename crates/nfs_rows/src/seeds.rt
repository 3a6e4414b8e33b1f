//! The keys of hashes: one type for the names of owners and one for the ids of clients, so that a table takes its own.
ghost use Rattle.std.specs.Prelude.{◌≡◌};
ghost use Rattle.nfs_rows.specs.NameHash.{hash_of};

use crate::name_hash::hash_of;
use std::hash::RandomState;
use std::io;
use std::marker::Model;
use std::random::RandomSource;

/// The key of the hashes of owners' names.
#[derive(Clone, Copy, Debug)]
pub struct OwnerSeed {
    key: RandomState,
}

impl Model for OwnerSeed {
    ghost use Rattle.std.specs.declared.hash.RandomState.{RandomState};

    ghost Value = { RandomState };

    ghost view = { λ s. s.key };

    ghost inverse = { λ key. record { key = key } };
}

impl OwnerSeed {
    /// A key of random bytes of this source.
    pub fn new(rt: &impl RandomSource) -> io::Result<OwnerSeed> {
        let key = RandomState::new(rt)?;
        Ok(OwnerSeed { key })
    }

    /// The keyed hash of an owner's name in a space of names.
    pub fn hash(self, space: u64, kind: u8, name: &[u8]) -> u64
        ensures { result ≡ hash_of self space kind name.now }
    {
        hash_of(self.key, space, kind, name)
    }
}

/// The key of the hashes of clients' ids.
#[derive(Clone, Copy, Debug)]
pub struct IdSeed {
    key: RandomState,
}

impl Model for IdSeed {
    ghost use Rattle.std.specs.declared.hash.RandomState.{RandomState};

    ghost Value = { RandomState };

    ghost view = { λ s. s.key };

    ghost inverse = { λ key. record { key = key } };
}

impl IdSeed {
    /// A key of random bytes of this source.
    pub fn new(rt: &impl RandomSource) -> io::Result<IdSeed> {
        let key = RandomState::new(rt)?;
        Ok(IdSeed { key })
    }

    /// The keyed hash of a client's id.
    pub fn hash(self, id: &[u8]) -> u64
        ensures { result ≡ hash_of self 0 0 id.now }
    {
        hash_of(self.key, 0, 0, id)
    }
}
