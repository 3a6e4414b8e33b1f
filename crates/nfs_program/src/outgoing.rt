//! Bytes that wait for a thread that writes them, for lines and answers alike.

ghost use Rattle.std.specs.Prelude.{◌≡◌, ◌++◌, ◌≤◌, if◌then◌else◌, vec_len};
ghost use Rattle.nfs_program.specs.declared.outgoing.TheConstants.{ROOM};

use std::alloc::{AllocError, Global};
use std::mem;

/// How many bytes wait at most.
pub(crate) const ROOM: usize = 65_536;

/// Bytes that wait to be written, in memory that is there beforehand and doesn't grow.
#[derive(Drop)]
pub(crate) struct Outgoing {
    pub(crate) bytes: Vec<u8>,
    // Whether bytes were taken that aren't written yet.
    is_taken: bool,
    // Whether no more come.
    is_closed: bool,
    ghost most: { vec_len bytes ≤ ROOM },
}

impl Outgoing {
    /// None. All the memory that they ever take is made now.
    pub(crate) fn new(alloc: Global) -> Result<Outgoing, AllocError> {
        Ok(Outgoing {
            bytes: Vec::with_capacity(alloc, ROOM)?,
            is_taken: false,
            is_closed: false,
        })
    }

    /// Puts these bytes to the end, if there is room for all of them, and returns whether there was.
    pub(crate) fn put(&mut self, bytes: &[u8]) -> bool
        ensures { self.new.bytes.items
            ≡ (if result then self.old.bytes.items ++ bytes.now else self.old.bytes.items) }
    {
        let room = ROOM.saturating_sub(self.bytes.len());
        bytes.len() <= room && self.bytes.extend_from_slice(bytes).is_ok()
    }

    /// No more come.
    pub(crate) fn close(&mut self) {
        self.is_closed = true;
    }

    /// Takes the bytes that wait, in exchange for this memory, whose own are lost. Returns whether these are some, or
    /// more may come.
    pub(crate) fn take(&mut self, memory: &mut Vec<u8>) -> bool
        ensures { memory.new.items ≡ self.old.bytes.items }
    {
        memory.clear();
        mem::swap(&mut self.bytes, memory);
        self.is_taken = true;
        !memory.is_empty() || !self.is_closed
    }

    /// What was taken is written.
    pub(crate) fn note_written(&mut self) {
        self.is_taken = false;
    }

    /// Whether none waits, and more may come.
    pub(crate) fn is_idle(&self) -> bool {
        self.bytes.is_empty() && !self.is_closed
    }

    /// Whether all that came are written.
    pub(crate) fn is_written(&self) -> bool {
        self.bytes.is_empty() && !self.is_taken
    }
}
