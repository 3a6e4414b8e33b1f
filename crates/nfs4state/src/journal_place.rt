//! Where the journal of a run that goes on is written: over the file that has it as it goes, or into what stands at its
//! path.

ghost use Rattle.std.specs.Prelude.{◌≡◌, IfSome};

use crate::new_file::NewFile;
use crate::part_file::{PartFile, PartOver};
use crate::part_names::PartNames;
use crate::told::{Told, tell};
use nfs_program::Fault;
use nfs_server::Counted;
use std::fs;
use std::io::{self, Eprint, Error, ErrorKind, Write};

/// A path for the journal that was tried, and the file of the journal as it goes, if there is one.
#[derive(Drop)]
pub(crate) struct JournalPlace<'r, 'p> {
    rt: &'r HostRuntime,
    path: &'p str,
    // Whether something other than a regular file stands there.
    is_special: bool,
    part: Option<PartFile<'r>>,
}

impl<'r, 'p> JournalPlace<'r, 'p> {
    /// Tries this path: whether there is a folder, and none of this name in it, and whether the file of the journal as
    /// it goes can be made beside it. What is wrong goes to `errors`.
    pub(crate) fn new<E: Eprint>(
        rt: &'r HostRuntime,
        path: &'p str,
        errors: &E,
    ) -> Result<JournalPlace<'r, 'p>, Fault> {
        let is_special = match is_special(rt, path) {
            Ok(is_special) => is_special,
            Err(error) => {
                tell(errors, path, error);
                return Err(Fault::FileNotWritten);
            }
        };
        let Ok(names) = PartNames::beside(rt.alloc(), path) else {
            return Err(Fault::NoMemory);
        };
        match PartFile::new(rt, names) {
            Ok(part) => Ok(JournalPlace {
                rt,
                path,
                is_special,
                part: Some(part),
            }),
            Err(error) if error.kind() == ErrorKind::OutOfMemory => Err(Fault::NoMemory),
            Err(error) => {
                if is_special && error.kind() != ErrorKind::ResourceBusy {
                    let _ = eprintln!(errors; "{path}.part: {error}; the run goes on without it");
                    return Ok(JournalPlace {
                        rt,
                        path,
                        is_special,
                        part: None,
                    });
                }
                let _ = eprintln!(errors; "{path}.part: {error}");
                Err(Fault::FileNotWritten)
            }
        }
    }

    /// The file of the journal as it goes, if there is one.
    pub(crate) fn part(&self) -> Option<&PartFile<'r>> {
        self.part.as_ref()
    }

    /// The journal's file, which isn't touched yet. What is wrong with it goes to `errors`.
    pub(crate) fn file<E: Eprint + Drop>(&self, errors: E) -> OngoingFile<'_, 'r, 'p, E>
        ensures { result.failures ≡ 0 }
    {
        let target = match &self.part {
            Some(part) if !self.is_special => Target::Over(PartOver::new(part, self.path)),
            _ => Target::New(NewFile::new(self.rt, self.path)),
        };
        Counted::new(Told::new(errors, self.path, target))
    }
}

/// The journal's file, whose failures are told and counted.
pub(crate) type OngoingFile<'f, 'r, 'p, E> = Counted<Told<'p, E, Target<'f, 'r, 'p>>>;

/// Where the bytes go.
#[derive(Drop)]
pub(crate) enum Target<'f, 'r, 'p> {
    Over(PartOver<'f, 'r, 'p>),
    New(NewFile<'r, 'p>),
}

impl Write for Target<'_, '_, '_> {
    fn write(&mut self, bytes: &[u8]) -> io::Result<usize> {
        match self {
            Target::Over(file) => file.write(bytes),
            Target::New(file) => file.write(bytes),
        }
    }

    fn flush(&mut self) -> io::Result<()> {
        match self {
            Target::Over(file) => file.flush(),
            Target::New(file) => file.flush(),
        }
    }
}

// Whether something other than a regular file stands at this path; a folder is an error. A path that can't be looked at
// is found wrong when its file is made.
fn is_special(rt: &HostRuntime, path: &str) -> io::Result<bool> {
    match fs::symlink_metadata(rt, path) {
        Ok(there) if there.is_dir() => Err(Error::from_raw_os_error(libc::EISDIR)),
        Ok(there) => Ok(!there.is_file()),
        Err(_) => Ok(false),
    }
}
