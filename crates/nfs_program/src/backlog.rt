//! Encodes a growing journal piece by piece, so that its file can be written while the run goes on.

ghost use Rattle.std.specs.Prelude.{◌≡◌, ◌+◌, ◌-◌, ◌^◌, ◌<◌, ◌≤◌, ◌⊎◌, ◌↔◌, [], IfOk, IsFalse, IsTrue, OnErr, OnOk, length, vec_capacity};
ghost use Rattle.std.specs.Io.KnownBytes.{Appends};
ghost use Rattle.nfs_journal.specs.File.{file};
ghost use Rattle.nfs_journal.specs.Journals.{file_of};
ghost use Rattle.nfs_program.specs.Backlog.{HasNoPlaceAt, Puts, TakesTo};

use crate::BUFFER_LEN;
use nfs_core::{Entry, Journal};
use nfs_journal::{AuditError, write_journal};
use std::alloc::Global;
use std::io;
use std::io::Write;
use xdr::{Wire, WireError};

/// How many bytes of entries are taken at once at most, where it isn't one entry that is longer.
pub(crate) const PIECE_LEN: usize = 65_536;

/// What waits to be written of a journal that grows: its file's beginning, or whole entries behind what was written.
#[derive(Drop)]
pub(crate) struct Backlog {
    bytes: Vec<u8>,
    // How many of the journal's entries were taken so far.
    count: usize,
}

impl Backlog {
    /// The file of a journal that has no entries. All the memory that pieces take is taken now.
    pub(crate) fn of(alloc: Global, journal: &Journal) -> Result<Backlog, AuditError>
        requires none { journal.now.history.entries ≡ [] }
        ensures bytes { IfOk result
            (λ b. b.bytes.items ≡ file.encoding (file_of journal.now.history)) }
        ensures count { IfOk result (λ b. b.count ≡ 0) }
    {
        let Ok(mut bytes) = Vec::with_capacity(alloc, BUFFER_LEN) else {
            return Err(AuditError::Memory);
        };
        match write_journal(&mut bytes, journal) {
            Ok(()) => Ok(Backlog { bytes, count: 0 }),
            Err(error) => Err(error),
        }
    }

    /// How many of the journal's entries were taken.
    pub(crate) fn count(&self) -> usize
        ensures { result ≡ self.now.count }
    {
        self.count
    }

    /// How many bytes wait.
    pub(crate) fn len(&self) -> usize
        ensures { result ≡ length self.now.bytes.items }
    {
        self.bytes.len()
    }

    /// Whether bytes wait.
    pub(crate) fn is_waiting(&self) -> bool
        ensures { IsFalse result ↔ self.now.bytes.items ≡ [] }
    {
        !self.bytes.is_empty()
    }

    /// Takes the next entries of the journal, which begins with those that were taken before, and returns whether some
    /// were left: as many as have no more than `PIECE_LEN` bytes together, or one. An error comes only where an entry
    /// has no form or no room, and those before it were taken.
    pub(crate) fn take(&mut self, journal: &Journal) -> Result<bool, WireError>
        ensures whole { TakesTo self.old self.new journal.now.history.entries }
        ensures within { self.old.count ≤ length journal.now.history.entries
            → self.new.count ≤ length journal.now.history.entries }
        ensures left { IfOk result (λ left.
            IsTrue left ↔ self.new.count < length journal.now.history.entries) }
        ensures some { IfOk result (λ left. IsTrue left → self.old.count < self.new.count) }
        ensures short { (self.new.count ≤ self.old.count + 1)
            ⊎ (length self.new.bytes.items ≤ length self.old.bytes.items + PIECE_LEN) }
        ensures err { OnErr result
            (HasNoPlaceAt (vec_capacity self.old.bytes) self.new journal.now.history.entries) }
    {
        let (start, first, end) = (self.bytes.len(), self.count, journal.len());
        let piece = journal.piece_from(first);
        for entry in piece {
            let most = if self.count == first {
                usize::MAX
            } else {
                start.saturating_add(PIECE_LEN)
            };
            if !self.put(entry, most)? {
                return Ok(true);
            }
        }
        Ok(self.count < end)
    }

    // Puts the entry behind the bytes that wait, if no more than so many wait then.
    fn put(&mut self, entry: &Entry, most: usize) -> Result<bool, WireError>
        requires few { self.old.count < 2 ^ 64 - 1 }
        ensures { Puts self.old entry.now most result self.new }
    {
        let end = self.bytes.len();
        if end > most {
            return Ok(false);
        }
        entry.write(&mut self.bytes)?;
        if self.bytes.len() > most {
            self.bytes.truncate(end);
            return Ok(false);
        }
        self.count += 1;
        Ok(true)
    }

    /// Writes what waits. At Ok nothing waits any more; at Err the same bytes wait, to be written again from the first.
    pub(crate) fn write_to<W: Write>(&mut self, file: &mut W) -> io::Result<()>
        ensures bytes { OnOk result
            (Appends (W.contents file.old) (W.contents file.new) self.old.bytes.items) }
        ensures none { OnOk result (self.new.bytes.items ≡ []) }
        ensures kept { OnErr result (self.new.bytes.items ≡ self.old.bytes.items) }
        ensures count { self.new.count ≡ self.old.count }
    {
        file.write_all(self.bytes.as_slice())?;
        self.bytes.clear();
        Ok(())
    }
}
