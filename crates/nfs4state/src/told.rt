//! Lines on standard error that say why a file, an address or a write failed.

use std::fmt::Display;
use std::io::{self, Eprint, ErrorKind, Write};

/// Tells by a line why something can't be had. An error in writing it is ignored, since there is no
/// other place to report it.
pub(crate) fn tell<E: Eprint, D: Display + Drop>(errors: &E, name: &str, why: D) {
    let _ = eprintln!(errors; "{name}: {why}");
}

/// A writer of this name, whose failures are told by a line.
#[derive(Drop)]
pub(crate) struct Told<'p, E, W> {
    errors: E,
    name: &'p str,
    writer: W,
}

impl<'p, E, W> Told<'p, E, W> {
    pub(crate) fn new(errors: E, name: &'p str, writer: W) -> Told<'p, E, W> {
        Told {
            errors,
            name,
            writer,
        }
    }
}

impl<E: Eprint, W: Write> Write for Told<'_, E, W> {
    fn write(&mut self, bytes: &[u8]) -> io::Result<usize> {
        let written = self.writer.write(bytes);
        match &written {
            Ok(0) => tell(&self.errors, self.name, ErrorKind::WriteZero),
            Ok(_) => {}
            Err(error) => tell(&self.errors, self.name, error),
        }
        written
    }

    fn flush(&mut self) -> io::Result<()> {
        self.writer.flush()
    }
}
