//! A buffer of fixed size for lines on standard error, so that telling a line takes no memory.

ghost use Rattle.std.specs.Prelude.{◌≡◌, ◌≤◌, length};
ghost use Rattle.nfs_program.specs.declared.line.TheConstants.{MOST_LEN};

use std::io;
use std::io::Write;

// How many bytes a text can have.
const MOST_LEN: usize = 8_192;

/// A line that is composed, or some, in memory of its own. What is longer is cut, and ends like a line all the same.
#[derive(Drop)]
pub(crate) struct Line {
    bytes: [u8; MOST_LEN],
    len: usize,
    ghost within: { len ≤ MOST_LEN },
}

impl Line {
    /// A text without bytes.
    pub(crate) fn new() -> Line
        ensures { result.len ≡ 0 }
    {
        Line {
            bytes: [0; MOST_LEN],
            len: 0,
        }
    }

    /// What was composed so far.
    pub(crate) fn bytes(&self) -> &[u8]
        ensures { length result.now ≡ self.now.len }
    {
        &self.bytes[..self.len]
    }

    // Puts one more byte to the end, if there is room; in the last place the end of a line, whatever the byte.
    fn put(&mut self, byte: u8) {
        if self.len < MOST_LEN {
            let is_last = self.len == MOST_LEN - 1;
            self.bytes[self.len] = if is_last { b'\n' } else { byte };
            self.len += 1;
        }
    }
}

impl Write for Line {
    fn write(&mut self, bytes: &[u8]) -> io::Result<usize> {
        for byte in bytes {
            self.put(*byte);
        }
        Ok(bytes.len())
    }

    fn flush(&mut self) -> io::Result<()> {
        Ok(())
    }
}
