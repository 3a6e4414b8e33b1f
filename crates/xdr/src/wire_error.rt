//! Why bytes can't be read or a value can't be written.

ghost use Rattle.std.specs.Prelude.{◌≡◌};
ghost use Rattle.xdr.specs.WireError.{number_of};
ghost use Rattle.xdr.specs.declared.wire_error.WireError.TheVariants as errors;

use std::alloc::AllocError;
use thiserror::Error;

/// Why bytes could not be read or a value could not be written.
#[derive(Clone, Copy, Debug, PartialEq, Eq, Error)]
pub enum WireError {
    /// The bytes end inside the form, or hold a number that the form doesn't have.
    #[error("the bytes do not hold the form (1)")]
    Short = 1,
    /// A length is above what the form allows.
    #[error("a length is above its limit (2)")]
    TooLong = 2,
    /// Memory ran out.
    #[error("no memory (3)")]
    Memory = 3,
}

impl WireError {
    /// The error's number, from 1 to 3.
    pub fn number(&self) -> u32
        ensures { result ≡ number_of self.now }
    {
        *self as u32
    }
}

impl From<AllocError> for WireError {
    ghost from_gives = { λ _ e. e ≡ errors.Memory };

    fn from(_refused: AllocError) -> WireError {
        WireError::Memory
    }
}
