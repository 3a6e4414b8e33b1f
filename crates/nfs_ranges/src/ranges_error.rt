//! Why LOCK or LOCKU can't change an owner's ranges.

ghost use Rattle.std.specs.Prelude.{◌≡◌};
ghost use Rattle.nfs_ranges.specs.RangesError.{number_of};
ghost use Rattle.nfs_ranges.specs.declared.ranges_error.RangesError.TheVariants as errors;

use std::alloc::AllocError;
use thiserror::Error;

/// Why the ranges weren't changed.
#[derive(Clone, Copy, Debug, PartialEq, Eq, Error)]
pub enum RangesError {
    /// There would be more runs than an owner may have of a file.
    #[error("too many runs of bytes (1)")]
    Full = 1,
    /// Memory ran out.
    #[error("no memory (2)")]
    Memory = 2,
}

impl RangesError {
    /// The error's number.
    pub fn number(&self) -> u32
        ensures { result ≡ number_of self.now }
    {
        *self as u32
    }
}

impl From<AllocError> for RangesError {
    ghost from_gives = { λ _ e. e ≡ errors.Memory };

    fn from(_refused: AllocError) -> RangesError {
        RangesError::Memory
    }
}
