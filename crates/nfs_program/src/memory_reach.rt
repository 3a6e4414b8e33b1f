//! Tells how much of the bound of `--memory` a run has used, at each tenth.

use crate::reached_limits::Reach;
use nfs_core::Journal;
use std::cmp::min;
use std::io::Write;

const MIB: u64 = 1_048_576;

/// How near the memory of a run's entries has come to its bound.
#[derive(Drop)]
pub(crate) struct MemoryReach {
    // The bound in MiB, and how many bytes the entries counted at the last look.
    limit: u32,
    len: u64,
    // How many tenths of the bound were passed, and how many of these were told.
    passed: u64,
    told: u64,
    // Whether a call was refused for it.
    full: Reach,
}

impl MemoryReach {
    /// The reach of a run at which nobody has looked, with this bound in MiB.
    pub(crate) fn new(limit: u32) -> MemoryReach {
        MemoryReach {
            limit,
            len: 0,
            passed: 0,
            told: 0,
            full: Reach::Below,
        }
    }

    /// Looks at what the journal's entries count.
    pub(crate) fn look(&mut self, journal: &Journal) {
        self.len = journal.memory();
        let tenths = (self.len.saturating_mul(10) / MIB).checked_div(u64::from(self.limit));
        self.passed = min(tenths.unwrap_or(0), 9);
        self.full = self.full.noted(journal.is_out_of_memory());
    }

    /// Tells the last tenth that was passed, and that a call was refused, each once.
    pub(crate) fn tell<E: Write>(&mut self, lines: &mut E) {
        if self.passed > self.told {
            let _ = writeln!(lines, "memory: {} of {} MiB", self.len / MIB, self.limit);
            self.told = self.passed;
        }
        if self.full == Reach::Reached {
            tell_full(self.limit, lines);
            self.full = Reach::Told;
        }
    }
}

/// Tells at the end of a run, in which nobody looked, that a call was refused for this bound, if there is one.
pub(crate) fn tell_refusal<E: Write>(journal: &Journal, limit: Option<u32>, lines: &mut E) {
    match limit {
        Some(limit) if journal.is_out_of_memory() => tell_full(limit, lines),
        _ => {}
    }
}

fn tell_full<E: Write>(limit: u32, lines: &mut E) {
    let _ = writeln!(lines, "the memory is full: {limit} of {limit} MiB");
}
