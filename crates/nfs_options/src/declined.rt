//! What the program prints if the words of the command line ask for no run: help, or the mistake.

ghost use Rattle.std.specs.Prelude.{◌≡◌, ⊤};
ghost use Rattle.clap.specs.Words.{kind_of};
ghost use Rattle.nfs_options.specs.CommandLine.{IsDeclinedFor, IsMemoryOr};

use crate::commands::error_of;
use crate::name::Name;
use clap::Error;
use clap::error::ErrorKind;
use std::alloc::{AllocError, Global};

/// Why the words of the command line don't ask for anything that the program can do.
#[derive(Drop)]
pub enum Declined {
    /// The words ask for help. This is the help's text, to be printed on standard output.
    Help(String),
    /// The words contain a mistake. This text explains the mistake, and is to be printed on standard error.
    Usage(String),
    /// Memory ran out while they were read.
    Memory,
}

impl Declined {
    /// What an error of clap becomes in the program.
    pub(crate) fn of(alloc: Global, error: &Error) -> Declined
        ensures { IsDeclinedFor (kind_of error.now) result }
    {
        let kind = error.kind();
        match format!(in alloc; "{error}") {
            Err(_) => Declined::Memory,
            Ok(text) => match kind {
                ErrorKind::OutOfMemory => Declined::Memory,
                ErrorKind::DisplayHelp => Declined::Help(text),
                _ => Declined::Usage(text),
            },
        }
    }

    /// For a mistake of this kind in what is given for a subcommand.
    pub(crate) fn usage(alloc: Global, name: Name, kind: ErrorKind, message: &str) -> Declined
        ensures { IsMemoryOr ⊤ result }
    {
        match error_of(alloc, name, kind, message) {
            Ok(error) => match format!(in alloc; "{error}") {
                Ok(text) => Declined::Usage(text),
                Err(_) => Declined::Memory,
            },
            Err(_) => Declined::Memory,
        }
    }

    /// For an `audit` to which no file is given.
    pub(crate) fn without_file(alloc: Global) -> Declined
        ensures { IsMemoryOr ⊤ result }
    {
        let kind = ErrorKind::MissingRequiredArgument;
        Declined::usage(alloc, Name::Audit, kind, "no FILE is given")
    }
}

impl From<AllocError> for Declined {
    ghost use Rattle.nfs_options.specs.declared.declined.Declined.TheVariants.{Memory};

    ghost from_gives = { λ _ d. d ≡ Memory };

    fn from(_refused: AllocError) -> Declined {
        Declined::Memory
    }
}
