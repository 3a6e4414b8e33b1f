//! Why a connection ended before its input did, with the numbers that tests compare.

ghost use Rattle.std.specs.Prelude.{◌≡◌};
ghost use Rattle.nfs_server.specs.ServeError.{number_of};

use thiserror::Error;

/// Why a connection ended before its input did.
#[derive(Clone, Copy, Debug, PartialEq, Eq, Error)]
pub enum ServeError {
    /// A read failed.
    #[error("input not read (1)")]
    Read = 1,
    /// A write failed, or took no bytes.
    #[error("output not written (2)")]
    Write = 2,
    /// A record has more than 262,144 bytes.
    #[error("record too long (3)")]
    TooLong = 3,
    /// Memory ran out.
    #[error("no memory (4)")]
    Memory = 4,
    /// More than 2^40 bytes came.
    #[error("input too long (5)")]
    TooMuch = 5,
}

impl ServeError {
    /// The error's number, from 1 to 5.
    pub fn number(&self) -> u32
        ensures { result ≡ number_of self.now }
    {
        *self as u32
    }
}
