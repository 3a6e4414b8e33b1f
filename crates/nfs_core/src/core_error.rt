//! Why an event can't be entered in the journal, with the numbers that tests compare.

ghost use Rattle.std.specs.Prelude.{◌≡◌};
ghost use Rattle.nfs_core.specs.CoreError.{number_of};

use nfs_rules::{NotExpired, NotForgotten};
use std::alloc::AllocError;
use thiserror::Error;

/// Why a call of the core that doesn't answer an operation failed.
#[derive(Clone, Copy, Debug, PartialEq, Eq, Error)]
pub enum CoreError {
    /// The client has no confirmed record.
    #[error("the client isn't live (1)")]
    NotLive = 1,
    /// The time of the event hasn't come, as where the client's lease hasn't run out.
    #[error("the client's lease hasn't run out (2)")]
    NotDue = 2,
    /// The journal has as many entries as it can have.
    #[error("the journal is full (3)")]
    Full = 3,
    /// Memory ran out.
    #[error("no memory (4)")]
    Memory = 4,
}

impl CoreError {
    /// The error's number, from 1 to 4.
    pub fn number(&self) -> u32
        ensures { result ≡ number_of self.now }
    {
        *self as u32
    }
}

impl From<AllocError> for CoreError {
    ghost use Rattle.std.specs.Prelude.{◌≡◌};
    ghost use Rattle.nfs_core.specs.declared.core_error.CoreError.TheVariants.{Memory};

    ghost from_gives = { λ _ e. e ≡ Memory };

    fn from(_: AllocError) -> CoreError {
        CoreError::Memory
    }
}

impl From<NotExpired> for CoreError {
    ghost use Rattle.std.specs.Prelude.{◌≡◌};
    ghost use Rattle.nfs_core.specs.CoreError.{error_of};

    ghost from_gives = { λ reason e. e ≡ error_of reason };

    fn from(reason: NotExpired) -> CoreError {
        match reason {
            NotExpired::NotLive => CoreError::NotLive,
            NotExpired::NotDue => CoreError::NotDue,
        }
    }
}

impl From<NotForgotten> for CoreError {
    ghost use Rattle.std.specs.Prelude.{◌≡◌};
    ghost use Rattle.nfs_core.specs.CoreError.{error_of_forget};

    ghost from_gives = { λ reason e. e ≡ error_of_forget reason };

    fn from(reason: NotForgotten) -> CoreError {
        match reason {
            NotForgotten::NotDue => CoreError::NotDue,
            NotForgotten::Memory => CoreError::Memory,
        }
    }
}
