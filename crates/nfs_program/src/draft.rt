//! The trait by which this crate writes and removes the file of a journal whose run isn't over.

use std::io;
use std::io::Write;

/// A file that is written while a run goes on, and that isn't wanted any more once the journal's own file stands.
pub trait Draft: Write {
    /// Has the next byte written at this place of the file, over what is there.
    fn go_back(&mut self, place: u64);

    /// Is told how long the file is, once it has each entry of a journal that grows no more.
    fn note_whole(&mut self, len: u64);

    /// Removes the file, unless it has become the journal's own.
    fn remove(&mut self) -> io::Result<()>;
}
