//! The error if the system gives no random bytes for a seed.

use thiserror::Error;

/// The system gave no random bytes for a seed.
#[derive(Clone, Copy, Debug, PartialEq, Eq, Error)]
#[error("no random seed")]
pub struct NoRandomSeed;
