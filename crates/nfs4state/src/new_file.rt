//! A file that its first write creates: a run that writes nothing keeps the file that was there.

ghost use Rattle.std.specs.Io.{WritesAtMost};

use crate::place::Place;
use std::fs::{self, File, OpenOptions};
use std::io::{self, Write};
use std::os::unix::fs::FileTypeExt;

/// A file that is made, in place of one that is there, once bytes are written to it.
#[derive(Drop)]
pub(crate) struct NewFile<'r, 'p> {
    rt: &'r HostRuntime,
    path: &'p str,
    opened: Option<Opened>,
}

// The open file, and where its next byte goes, if it is a regular file.
#[derive(Drop)]
struct Opened {
    file: File,
    place: Option<Place>,
}

impl<'r, 'p> NewFile<'r, 'p> {
    pub(crate) fn new(rt: &'r HostRuntime, path: &'p str) -> NewFile<'r, 'p> {
        NewFile {
            rt,
            path,
            opened: None,
        }
    }
}

impl Write for NewFile<'_, '_> {
    fn write(&mut self, bytes: &[u8]) -> io::Result<usize> {
        if self.opened.is_none() {
            self.opened = Some(Opened::new(self.rt, self.path)?);
        }
        match &mut self.opened {
            Some(opened) => opened.write(bytes),
            None => Ok(0),
        }
    }

    fn flush(&mut self) -> io::Result<()> {
        match &mut self.opened {
            Some(opened) => opened.file.flush(),
            None => Ok(()),
        }
    }
}

impl Opened {
    // Without a wait, also if the path is that of a FIFO: for a moment this process reads it, and after that a write
    // fails if nobody else does.
    fn new(rt: &HostRuntime, path: &str) -> io::Result<Opened> {
        let reader = match fs::metadata(rt, path) {
            Ok(there) if there.file_type().is_fifo() => {
                Some(OpenOptions::new().read(true).write(true).open(rt, path)?)
            }
            _ => None,
        };
        let file = File::create(rt, path)?;
        drop(reader);
        let is_regular = file.metadata()?.is_file();
        let place = is_regular.then_some(Place::behind(0));
        Ok(Opened { file, place })
    }

    fn write(&mut self, bytes: &[u8]) -> io::Result<usize>
        ensures { WritesAtMost result bytes.now }
    {
        match &mut self.place {
            Some(place) => place.write(&mut self.file, bytes),
            None => self.file.write(bytes),
        }
    }
}
