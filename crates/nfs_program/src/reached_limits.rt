//! Tells once which limits a run has reached: live clients, entries of the journal, and memory of the entries.

ghost use Rattle.std.specs.Prelude.{◌≡◌, length, nat_le};
ghost use Rattle.nfs_program.specs.declared.reached_limits.Reach.TheVariants as reaches;
ghost use Rattle.nfs_program.specs.ReachedLimits.{after_telling, noted};

use crate::memory_reach::MemoryReach;
use nfs_core::{Core, JOURNAL_LIMIT, Journal};
use nfs_owners::SLOTS;
use std::io::Write;

/// How many clients can be live at once: no client has slot 0.
pub(crate) const MOST_LIVE: usize = SLOTS as usize - 1;

/// Which limits a run has reached. Each is told once.
#[derive(Drop)]
pub(crate) struct ReachedLimits {
    clients: Reach,
    journal: Reach,
    memory: Option<MemoryReach>,
}

/// How far a run is from a limit.
#[derive(Clone, Copy, PartialEq, Eq)]
pub(crate) enum Reach {
    Below,
    /// The run has reached the limit, and no line has told that yet.
    Reached,
    Told,
}

impl Reach {
    // What is known of the limit once it was looked whether it is reached.
    pub(crate) fn noted(self, is_reached: bool) -> Reach
        ensures { result ≡ noted self is_reached }
    {
        match self {
            Reach::Below if is_reached => Reach::Reached,
            reach => reach,
        }
    }

    // What is known of the limit after a line has told that it was reached, if such a line was due.
    fn told<E: Write>(self, lines: &mut E, what: &str, limit: usize) -> Reach
        ensures { result ≡ after_telling self }
    {
        match self {
            Reach::Reached => {
                let _ = writeln!(lines, "{what}: {limit} of {limit}");
                Reach::Told
            }
            reach => reach,
        }
    }
}

impl ReachedLimits {
    /// No limit is reached. The memory of the entries has a bound of so many MiB, if it has one.
    pub(crate) fn new(memory: Option<u32>) -> ReachedLimits
        ensures clients { result.clients ≡ reaches.Below }
        ensures journal { result.journal ≡ reaches.Below }
    {
        ReachedLimits {
            clients: Reach::Below,
            journal: Reach::Below,
            memory: memory.map(|limit| MemoryReach::new(limit)),
        }
    }

    /// Looks whether as many clients are live as can be, and how full the journal is.
    pub(crate) fn look(&mut self, core: &Core)
        ensures clients { self.new.clients ≡ noted self.old.clients
            (nat_le MOST_LIVE (length core.now.stored.clients.confirmed)) }
        ensures journal { self.new.journal ≡ noted self.old.journal
            (nat_le JOURNAL_LIMIT (length core.now.journal.entries)) }
    {
        let journal = core.journal();
        self.clients = self.clients.noted(core.count_live() >= MOST_LIVE);
        self.journal = self.journal.noted(journal.is_full());
        self.look_at_memory(journal);
    }

    /// Looks at the memory of the journal's entries alone.
    pub(crate) fn look_at_memory(&mut self, journal: &Journal)
        ensures clients { self.new.clients ≡ self.old.clients }
        ensures journal { self.new.journal ≡ self.old.journal }
    {
        if let Some(memory) = &mut self.memory {
            memory.look(journal);
        }
    }

    /// Tells those that weren't told.
    pub(crate) fn tell<E: Write>(&mut self, lines: &mut E)
        ensures clients { self.new.clients ≡ after_telling self.old.clients }
        ensures journal { self.new.journal ≡ after_telling self.old.journal }
    {
        self.clients = self
            .clients
            .told(lines, "no client slot is left", MOST_LIVE);
        self.journal = self
            .journal
            .told(lines, "the journal is full", JOURNAL_LIMIT);
        if let Some(memory) = &mut self.memory {
            memory.tell(lines);
        }
    }
}
