//! Why a client or an owner can't be recorded.

ghost use Rattle.std.specs.Prelude.{◌≡◌};
ghost use Rattle.nfs_owners.specs.OwnersError.{number_of};

use std::alloc::AllocError;
use thiserror::Error;

/// Why a call failed. What is kept is then unchanged.
#[derive(Clone, Copy, Debug, PartialEq, Eq, Error)]
pub enum OwnersError {
    /// A limit would be exceeded.
    #[error("no place left (1)")]
    Full = 1,
    /// Memory ran out.
    #[error("no memory (2)")]
    Memory = 2,
}

impl OwnersError {
    /// The error's number, 1 or 2.
    pub fn number(&self) -> u32
        ensures { result ≡ number_of self.now }
    {
        *self as u32
    }
}

impl From<AllocError> for OwnersError {
    ghost use Rattle.nfs_owners.specs.declared.owners_error.OwnersError.TheVariants.{Memory};

    ghost from_gives = { λ _ e. e ≡ Memory };

    fn from(_e: AllocError) -> OwnersError {
        OwnersError::Memory
    }
}
