//! Why an audit refuses a file as a journal.

ghost use Rattle.std.specs.Prelude.{◌≡◌};
ghost use Rattle.nfs_journal.specs.Journals.{number_of};

use thiserror::Error;

/// Why a file isn't a lawful journal, or can't be written.
#[derive(Clone, Copy, Debug, PartialEq, Eq, Error)]
pub enum AuditError {
    /// The bytes are no journal, or the journal has no form as bytes.
    #[error("not a journal")]
    Format,
    /// The entries before the one with this number are lawful, and it can't follow them.
    #[error("wrong answer at entry {0}")]
    WrongAnswer(u32),
    /// Memory ran out.
    #[error("no memory")]
    Memory,
}

impl AuditError {
    /// The error's number, from 1 to 3.
    pub fn number(&self) -> u32
        ensures { result ≡ number_of self.now }
    {
        match self {
            AuditError::Format => 1,
            AuditError::WrongAnswer(_) => 2,
            AuditError::Memory => 3,
        }
    }
}
