//! Keeps the beginning of a run's journal in a file, so that a run that is killed leaves a journal.

ghost use Rattle.std.specs.Prelude.{◌≡◌, []};

use crate::Draft;
use crate::backlog::Backlog;
use nfs_core::Journal;
use nfs_journal::AuditError;
use nfs_orders::OrderError;
use std::alloc::Global;
use std::io::{Error, ErrorKind, Write};
use xdr::WireError;

/// The beginning of a journal that grows, kept in a file of its own: that of the journal before its first entry, and
/// then whole entries. A piece that can't be written is told once, and is written again each time that the journal is
/// looked at, from the place where the last whole piece ended.
#[derive(Drop)]
pub struct Beginning<'a, D> {
    name: &'a str,
    draft: D,
    backlog: Backlog,
    // How many bytes the whole pieces have that were written.
    len: u64,
    trouble: Trouble,
}

// Why the file lacks entries that were seen.
#[derive(Drop)]
enum Trouble {
    Absent,
    Untold(Error),
    Told,
}

impl<'a, D: Draft + Drop> Beginning<'a, D> {
    /// The beginning of this journal, which has no entries, in the file of this name. Without memory for it, the file
    /// is removed.
    pub fn new(
        alloc: Global,
        name: &'a str,
        draft: D,
        journal: &Journal,
    ) -> Result<Beginning<'a, D>, AuditError>
        requires none { journal.now.history.entries ≡ [] }
    {
        let mut draft = draft;
        let backlog = match Backlog::of(alloc, journal) {
            Ok(backlog) => backlog,
            Err(error) => {
                let _ = draft.remove();
                return Err(error);
            }
        };
        let mut beginning = Beginning {
            name,
            draft,
            backlog,
            len: 0,
            trouble: Trouble::Absent,
        };
        let _ = beginning.write();
        Ok(beginning)
    }
}

impl<'a, D: Draft> Beginning<'a, D> {
    /// Takes the next of the journal's entries, unless some wait that couldn't be written, and returns whether some
    /// were left. Nothing is written yet.
    pub(crate) fn take(&mut self, journal: &Journal) -> bool {
        if self.backlog.is_waiting() {
            return false;
        }
        match self.backlog.take(journal) {
            Ok(are_left) => are_left,
            Err(error) => {
                self.note(Error::from(kind_of(error)));
                false
            }
        }
    }

    /// Writes what was taken, and returns whether that was a piece that couldn't be written before.
    pub(crate) fn write(&mut self) -> bool {
        if !self.backlog.is_waiting() {
            return false;
        }
        let len = self.backlog.len();
        match self.backlog.write_to(&mut self.draft) {
            Ok(()) => {
                let was_troubled = self.is_troubled();
                self.len = self.len.saturating_add(len as u64);
                self.trouble = Trouble::Absent;
                was_troubled
            }
            Err(error) => {
                self.draft.go_back(self.len);
                self.note(error);
                false
            }
        }
    }

    // Whether it lacks entries that were seen.
    fn is_troubled(&self) -> bool {
        match &self.trouble {
            Trouble::Absent => false,
            Trouble::Untold(_) | Trouble::Told => true,
        }
    }

    // Notes what is wrong, unless that was noted before.
    fn note(&mut self, error: Error) {
        if !self.is_troubled() {
            self.trouble = Trouble::Untold(error);
        }
    }

    /// How many entries it has, unless it lacks some that were seen.
    pub(crate) fn count_written(&self) -> Result<usize, OrderError> {
        if self.is_troubled() {
            return Err(OrderError::JournalLost);
        }
        Ok(self.backlog.count())
    }

    /// Tells why it lacks entries, if it does and that wasn't told.
    pub(crate) fn tell<E: Write>(&mut self, lines: &mut E) {
        if let Trouble::Untold(error) = &self.trouble {
            let name = self.name;
            let _ = writeln!(
                lines,
                "{name}: {error}; entries are lacking until a write succeeds"
            );
            self.trouble = Trouble::Told;
        }
    }

    /// Brings the file up to the last entry of the journal, which grows no more.
    pub(crate) fn complete(&mut self, journal: &Journal) {
        for _ in 0..=journal.len() {
            let _ = self.take(journal);
            let _ = self.write();
            if self.is_troubled() {
                return;
            }
            if self.backlog.count() == journal.len() {
                self.draft.note_whole(self.len);
                return;
            }
        }
    }

    /// Removes the file, if that can be done.
    pub(crate) fn remove(&mut self) {
        let _ = self.draft.remove();
    }
}

// What is wrong where an entry can't be taken.
fn kind_of(error: WireError) -> ErrorKind {
    match error {
        WireError::Memory => ErrorKind::OutOfMemory,
        WireError::Short | WireError::TooLong => ErrorKind::InvalidData,
    }
}
