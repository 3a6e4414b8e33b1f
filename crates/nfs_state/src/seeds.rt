//! The seeds of the hashes by which clients' and owners' names are found.

use crate::no_random_seed::NoRandomSeed;
use nfs_rows::{IdSeed, OwnerSeed};
use std::random::RandomSource;

/// What the hashes of names are keyed by, so that clients, who choose the names, can't make hashes meet. What is stored
/// and answered doesn't depend on it.
#[derive(Clone, Copy, Debug)]
pub struct Seeds {
    /// For the names of owners.
    pub owners: OwnerSeed,
    /// For the ids of clients.
    pub ids: IdSeed,
}

impl Seeds {
    /// Seeds of random bytes of this source, each drawn by a call of its own. Fails if it gives none.
    pub fn new(rt: &impl RandomSource) -> Result<Seeds, NoRandomSeed> {
        let (Ok(owners), Ok(ids)) = (OwnerSeed::new(rt), IdSeed::new(rt)) else {
            return Err(NoRandomSeed);
        };
        Ok(Seeds { owners, ids })
    }
}
