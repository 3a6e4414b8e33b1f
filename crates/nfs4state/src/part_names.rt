//! The names of the file that has a run's journal while the run goes on, and of those that killed runs left.

use std::alloc::{AllocError, Global};
use std::fs;
use std::io::{self, ErrorKind};

/// The names of the journal's file as it goes, and of one that an earlier run left.
#[derive(Drop)]
pub(crate) struct PartNames {
    part: String,
    old: String,
}

impl PartNames {
    /// The names beside the journal's file, whose path is given: `PATH.part` and `PATH.part.old`.
    pub(crate) fn beside(alloc: Global, path: &str) -> Result<PartNames, AllocError> {
        Ok(PartNames {
            part: format!(in alloc; "{path}.part")?,
            old: format!(in alloc; "{path}.part.old")?,
        })
    }

    /// The name of the file.
    pub(crate) fn part(&self) -> &str {
        self.part.as_str()
    }

    /// Gives the file that an earlier run left the name `PATH.part.old`, the one before it `PATH.part.old.2`, and so
    /// on.
    pub(crate) fn set_aside(&self, rt: &HostRuntime) -> io::Result<()> {
        let alloc = rt.alloc();
        let free = self.first_free(rt)?;
        for number in (1..free).rev() {
            let (from, to) = (self.old(alloc, number)?, self.old(alloc, number + 1)?);
            fs::rename(rt, from.as_str(), to.as_str())?;
        }
        fs::rename(rt, self.part.as_str(), self.old.as_str())
    }

    // The first number whose name nothing has.
    fn first_free(&self, rt: &HostRuntime) -> io::Result<u32> {
        for number in 1..u32::MAX {
            match fs::symlink_metadata(rt, self.old(rt.alloc(), number)?.as_str()) {
                Ok(_) => {}
                Err(error) if error.kind() == ErrorKind::NotFound => return Ok(number),
                Err(error) => return Err(error),
            }
        }
        Err(io::Error::from(ErrorKind::AlreadyExists))
    }

    // The name of the file that was left so many runs before.
    fn old(&self, alloc: Global, number: u32) -> Result<String, AllocError> {
        let old = self.old.as_str();
        if number == 1 {
            format!(in alloc; "{old}")
        } else {
            format!(in alloc; "{old}.{number}")
        }
    }
}
