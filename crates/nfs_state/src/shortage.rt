//! Why an operation is answered NFS4ERR_RESOURCE.

ghost use Rattle.std.specs.Prelude.{◌≡◌};

use nfs_owners::OwnersError;
use std::alloc::AllocError;

/// Why a request is answered NFS4ERR_RESOURCE and changes nothing.
#[derive(Clone, Copy, PartialEq, Eq)]
pub enum Shortage {
    /// A limit would be exceeded.
    Limit,
    /// Memory ran out.
    Memory,
}

impl From<AllocError> for Shortage {
    ghost use Rattle.nfs_state.specs.declared.shortage.Shortage.TheVariants.{Memory};

    ghost from_gives = { λ _ e. e ≡ Memory };

    fn from(_: AllocError) -> Shortage {
        Shortage::Memory
    }
}

impl From<OwnersError> for Shortage {
    ghost use Rattle.nfs_state.specs.Shortage.{shortage_of};

    ghost from_gives = { λ error shortage. shortage ≡ shortage_of error };

    fn from(error: OwnersError) -> Shortage {
        match error {
            OwnersError::Full => Shortage::Limit,
            OwnersError::Memory => Shortage::Memory,
        }
    }
}
