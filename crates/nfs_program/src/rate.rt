//! Limits how many lines of a kind are written in a second, and counts the others.

ghost use Rattle.std.specs.Prelude.{◌≡◌, ◌≤◌, nat_lt};
ghost use Rattle.nfs_program.specs.declared.rate.TheConstants.{MOST_LINES};

use std::mem;

/// How many lines of one kind are told in a second at most.
pub(crate) const MOST_LINES: u32 = 10;

/// How many lines of one kind were told in a second, and how many were left out.
#[derive(Drop)]
pub(crate) struct Rate {
    second: u64,
    told: u32,
    left_out: u64,
    ghost most: { told ≤ MOST_LINES },
}

impl Rate {
    /// The counts of a second in which no line was told.
    pub(crate) fn new() -> Rate
        ensures told { result.told ≡ 0 }
        ensures left_out { result.left_out ≡ 0 }
    {
        Rate {
            second: 0,
            told: 0,
            left_out: 0,
        }
    }

    /// Whether one more line may be told in this second. It counts as told, or else as left out.
    pub(crate) fn admits(&mut self) -> bool
        ensures { result ≡ nat_lt self.old.told MOST_LINES }
    {
        let has_room = self.told < MOST_LINES;
        if has_room {
            self.told += 1;
        } else {
            self.left_out = self.left_out.saturating_add(1);
        }
        has_room
    }

    /// Begins this second, if it is a later one. Returns whether it is.
    pub(crate) fn turn(&mut self, second: u64) -> bool
        ensures { result ≡ nat_lt self.old.second second }
    {
        let is_later = self.second < second;
        if is_later {
            self.second = second;
            self.told = 0;
        }
        is_later
    }

    /// Whether lines were left out.
    pub(crate) fn has_left_out(&self) -> bool
        ensures { result ≡ nat_lt 0 self.now.left_out }
    {
        self.left_out > 0
    }

    /// How many were left out since this was last taken.
    pub(crate) fn take_left_out(&mut self) -> u64
        ensures result { result ≡ self.old.left_out }
        ensures none { self.new.left_out ≡ 0 }
    {
        mem::replace(&mut self.left_out, 0)
    }
}
