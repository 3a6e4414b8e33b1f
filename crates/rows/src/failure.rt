//! Why the program ends before its input does.

use nfs_core::NoRandomSeed;
use std::alloc::{AllocError, AllocFailed};
use thiserror::Error;

/// Why the program ends before its input does.
#[derive(Clone, Copy, Debug, PartialEq, Eq, Error)]
pub(crate) enum Failure {
    #[error("out of memory")]
    Memory,
    /// What was read is no input of this program, or can't be read.
    #[error("invalid input")]
    Input,
    #[error("no random seed")]
    Seed,
    /// An answer can't be written.
    #[error("output not written")]
    Output,
}

impl From<AllocError> for Failure {
    fn from(_refused: AllocError) -> Failure {
        Failure::Memory
    }
}

impl From<NoRandomSeed> for Failure {
    fn from(_refused: NoRandomSeed) -> Failure {
        Failure::Seed
    }
}

impl<T: Drop> From<AllocFailed<T>> for Failure {
    fn from(_refused: AllocFailed<T>) -> Failure {
        Failure::Memory
    }
}
