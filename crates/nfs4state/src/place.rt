//! Writes at a place of a regular file, never past the limit that the process has for a file's size: there the system
//! would end the process.

ghost use Rattle.std.specs.Prelude.{◌≤◌, IfOk, length};
ghost use Rattle.std.specs.Io.{WritesAtMost};

use libc::types::rlimit;
use std::fs::File;
use std::io::{self, Error, ErrorKind, Write};
use std::os::unix::fs::FileExt;

// What getrlimit is asked: how long a file may become.
const RLIMIT_FSIZE: i32 = 1;

/// Where the next byte of a regular file is written.
#[derive(Clone, Copy)]
pub(crate) struct Place(u64);

impl Place {
    /// The place behind so many bytes.
    pub(crate) fn behind(len: u64) -> Place {
        Place(len)
    }

    /// How many bytes are before it.
    pub(crate) fn len(self) -> u64 {
        self.0
    }

    /// Writes bytes from the front of these at this place, which moves on behind them, and returns how many. The file's
    /// own position stays.
    pub(crate) fn write_at(&mut self, file: &File, bytes: &[u8]) -> io::Result<usize>
        ensures { WritesAtMost result bytes.now }
    {
        let count = file.write_at(allowed(bytes, self.0)?, self.0)?;
        self.0 = self.0.saturating_add(count as u64);
        Ok(count)
    }

    /// Writes likewise at the file's own position, which is this place.
    pub(crate) fn write(&mut self, file: &mut File, bytes: &[u8]) -> io::Result<usize>
        ensures { WritesAtMost result bytes.now }
    {
        let count = file.write(allowed(bytes, self.0)?)?;
        self.0 = self.0.saturating_add(count as u64);
        Ok(count)
    }
}

// The front of these bytes that a file may have behind so many bytes.
fn allowed(bytes: &[u8], len: u64) -> io::Result<&[u8]>
    ensures { IfOk result (λ front. length front.now ≤ length bytes.now) }
{
    let room = room_behind(len).min(bytes.len());
    if room == 0 && !bytes.is_empty() {
        let reason = "File too large; `ulimit -f unlimited` lifts the limit";
        return Err(Error::new(ErrorKind::FileTooLarge, reason));
    }
    Ok(&bytes[..room])
}

// How many bytes a file may have behind so many.
fn room_behind(len: u64) -> usize {
    let mut limit = rlimit {
        rlim_cur: 0,
        rlim_max: 0,
    };
    if libc::getrlimit(RLIMIT_FSIZE, &mut limit) < 0 {
        return usize::MAX;
    }
    usize::try_from(limit.rlim_cur.saturating_sub(len)).unwrap_or(usize::MAX)
}
