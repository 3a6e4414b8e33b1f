//! What the reporter has seen and not yet told: the limits, and the journal's next entries.

use crate::reached_limits::ReachedLimits;
use crate::{Beginning, Draft};
use nfs_core::{Core, Journal};
use nfs_orders::OrderError;
use std::io::Write;

/// What was seen of a run that goes on.
#[derive(Drop)]
pub(crate) struct Sight<'a, D> {
    limits: ReachedLimits,
    beginning: Option<Beginning<'a, D>>,
    // Whether the last look left no entry. The next one comes at once, and sees nothing.
    is_level: bool,
}

impl<'a, D: Draft> Sight<'a, D> {
    /// The sight of a run that nobody has seen. The memory of the entries has a bound of so many MiB, if it has one.
    pub(crate) fn new(beginning: Option<Beginning<'a, D>>, memory: Option<u32>) -> Sight<'a, D> {
        Sight {
            limits: ReachedLimits::new(memory),
            beginning,
            is_level: false,
        }
    }

    /// Looks at the limits and at the next of the journal's entries. Returns whether there may be something to write
    /// down.
    pub(crate) fn look(&mut self, core: &Core) -> bool {
        if self.is_level {
            self.is_level = false;
            return false;
        }
        self.limits.look(core);
        let are_left = match &mut self.beginning {
            Some(beginning) => beginning.take(core.journal()),
            None => false,
        };
        self.is_level = !are_left;
        true
    }

    /// Looks once more, when the run has ended: at the memory of the journal's entries, and at those that the beginning
    /// lacks, which are written.
    pub(crate) fn look_last(&mut self, journal: &Journal) {
        self.limits.look_at_memory(journal);
        if let Some(beginning) = &mut self.beginning {
            beginning.complete(journal);
        }
    }

    /// Writes what was seen of the journal. Behind a piece that waited for long, there may be entries at once.
    pub(crate) fn write(&mut self) {
        if let Some(beginning) = &mut self.beginning {
            if beginning.write() {
                self.is_level = false;
            }
        }
    }

    /// How many entries the beginning of the journal has, if there is one that lacks none.
    pub(crate) fn count_written(&self) -> Result<usize, OrderError> {
        match &self.beginning {
            Some(beginning) => beginning.count_written(),
            None => Err(OrderError::NoJournal),
        }
    }

    /// Tells what is to be told.
    pub(crate) fn tell<E: Write>(&mut self, lines: &mut E) {
        self.limits.tell(lines);
        if let Some(beginning) = &mut self.beginning {
            beginning.tell(lines);
        }
    }

    /// The beginning of the journal, if one was kept.
    pub(crate) fn into_beginning(self) -> Option<Beginning<'a, D>> {
        self.beginning
    }
}
