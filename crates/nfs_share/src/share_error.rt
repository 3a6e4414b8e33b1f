//! Why an open or a delegation isn't granted, or an open isn't downgraded.

ghost use Rattle.std.specs.Prelude.{◌≡◌};
ghost use Rattle.nfs_share.specs.ShareError.{number_of};
ghost use Rattle.nfs_share.specs.declared.share_error.ShareError.TheVariants as errors;

use crate::Delegation;
use std::alloc::AllocError;
use thiserror::Error;

/// Why the opens and the delegations of a file weren't changed.
#[derive(Debug, Drop, Error)]
pub enum ShareError {
    /// Another owner's open denies the access, or has access that would be denied; or a delegation would be in the way
    /// of another client's open.
    #[error("an open of another owner stands against it (1)")]
    Denied,
    /// There is no such open, or its shares have no such union; or the client has a delegation of the file already.
    #[error("there is no such change of the file's opens and delegations (2)")]
    Invalid,
    /// These delegations of other clients are in the way.
    #[error("delegations of other clients are in the way (3)")]
    Held(Vec<Delegation>),
    /// Memory ran out.
    #[error("no memory (4)")]
    Memory,
}

impl ShareError {
    /// The error's number.
    pub fn number(&self) -> u32
        ensures { result ≡ number_of self.now }
    {
        match self {
            ShareError::Denied => 1,
            ShareError::Invalid => 2,
            ShareError::Held(_) => 3,
            ShareError::Memory => 4,
        }
    }
}

impl From<AllocError> for ShareError {
    ghost from_gives = { λ _ e. e ≡ errors.Memory };

    fn from(_refused: AllocError) -> ShareError {
        ShareError::Memory
    }
}
