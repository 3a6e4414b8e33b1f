//! The file that has the journal while a run goes on. It is this run's alone, and becomes the journal's own at the end.

use crate::part_names::PartNames;
use crate::place::Place;
use nfs_program::Draft;
use std::fs::{self, File, OpenOptions, TryLockError};
use std::io::{self, Error, ErrorKind, Write};
use std::os::unix::fs::MetadataExt;
use std::sync::atomic::{AtomicBool, AtomicU64, Ordering};

// How often the file is opened anew at most, as an earlier run left it or another one took its name.
const MOST_TRIES: u32 = 100;

/// The journal's file as it goes, which no other run has.
#[derive(Drop)]
pub(crate) struct PartFile<'r> {
    rt: &'r HostRuntime,
    names: PartNames,
    file: File,
    // How long it is, once it has each entry of a journal that grows no more; 0 before.
    whole: AtomicU64,
    // Whether it has got the name of the journal's own file.
    is_placed: AtomicBool,
}

impl<'r> PartFile<'r> {
    /// The file of this name, without bytes. What an earlier run left is set aside.
    pub(crate) fn new(rt: &'r HostRuntime, names: PartNames) -> io::Result<PartFile<'r>> {
        for _ in 0..MOST_TRIES {
            if let Some(file) = open_empty(rt, &names)? {
                return Ok(PartFile {
                    rt,
                    names,
                    file,
                    whole: AtomicU64::new(0),
                    is_placed: AtomicBool::new(false),
                });
            }
        }
        Err(Error::from(ErrorKind::ResourceBusy))
    }

    /// Its name.
    pub(crate) fn name(&self) -> &str {
        self.names.part()
    }
}

// The file, which nobody else has, without bytes. None if it had bytes, and was set aside, or if another file has its
// name by now.
fn open_empty(rt: &HostRuntime, names: &PartNames) -> io::Result<Option<File>> {
    let mut how = OpenOptions::new();
    let file = how
        .read(true)
        .write(true)
        .create(true)
        .open(rt, names.part())?;
    match file.try_lock() {
        Ok(()) => {}
        Err(TryLockError::WouldBlock) => {
            let reason = "another run keeps its journal there";
            return Err(Error::new(ErrorKind::ResourceBusy, reason));
        }
        Err(TryLockError::Error(error)) => return Err(error),
    }
    let opened = file.metadata()?;
    match fs::metadata(rt, names.part()) {
        Ok(named) if named.ino() == opened.ino() && named.dev() == opened.dev() => {}
        _ => return Ok(None),
    }
    if opened.is_file() && opened.len() == 0 {
        return Ok(Some(file));
    }
    names.set_aside(rt)?;
    Ok(None)
}

/// The file, to which the journal's beginning is written.
#[derive(Drop)]
pub(crate) struct PartDraft<'f, 'r> {
    part: &'f PartFile<'r>,
    place: Place,
}

impl<'f, 'r> PartDraft<'f, 'r> {
    pub(crate) fn new(part: &'f PartFile<'r>) -> PartDraft<'f, 'r> {
        PartDraft {
            part,
            place: Place::behind(0),
        }
    }
}

impl Write for PartDraft<'_, '_> {
    fn write(&mut self, bytes: &[u8]) -> io::Result<usize> {
        self.place.write_at(&self.part.file, bytes)
    }

    fn flush(&mut self) -> io::Result<()> {
        Ok(())
    }
}

impl Draft for PartDraft<'_, '_> {
    fn go_back(&mut self, place: u64) {
        self.place = Place::behind(place);
    }

    fn note_whole(&mut self, len: u64) {
        self.part.whole.store(len, Ordering::SeqCst);
    }

    fn remove(&mut self) -> io::Result<()> {
        if self.part.is_placed.load(Ordering::SeqCst) {
            return Ok(());
        }
        fs::remove_file(self.part.rt, self.part.name())
    }
}

/// The journal's own file, for which the bytes are written over those of the file that has them already. At the last
/// byte that file gets the path.
#[derive(Drop)]
pub(crate) struct PartOver<'f, 'r, 'p> {
    part: &'f PartFile<'r>,
    path: &'p str,
    place: Place,
}

impl<'f, 'r, 'p> PartOver<'f, 'r, 'p> {
    pub(crate) fn new(part: &'f PartFile<'r>, path: &'p str) -> PartOver<'f, 'r, 'p> {
        PartOver {
            part,
            path,
            place: Place::behind(0),
        }
    }
}

impl Write for PartOver<'_, '_, '_> {
    fn write(&mut self, bytes: &[u8]) -> io::Result<usize> {
        let whole = self.part.whole.load(Ordering::SeqCst);
        if whole == 0 {
            return Err(Error::other("the `.part` file lacks entries"));
        }
        let count = self.place.write_at(&self.part.file, bytes)?;
        if self.place.len() >= whole {
            fs::rename(self.part.rt, self.part.name(), self.path)?;
            self.part.is_placed.store(true, Ordering::SeqCst);
        }
        Ok(count)
    }

    fn flush(&mut self) -> io::Result<()> {
        Ok(())
    }
}
