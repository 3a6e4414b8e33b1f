//! The bytes of a file that one lock owner holds, with a change that takes no memory.

ghost use Rattle.std.specs.Prelude.{◌≡◌, ◌≤◌, ◌<◌, ◌+◌, ◌↔◌, [], length, nat_le, Some};
ghost use Rattle.std.specs.Prelude.{IfErr, IsOk, IsTrue, OnErr, OnOk};
ghost use Rattle.nfs_ranges.specs.Merged.{in_order};
ghost use Rattle.nfs_ranges.specs.Questions.{IsFirstConflict, IsRunAt};
ghost use Rattle.nfs_ranges.specs.RoomyRanges.{IsFree, modes_after, modes_in};
ghost use Rattle.nfs_ranges.specs.Runs.{runs};
ghost use Rattle.nfs_ranges.specs.Splices.{IsSpliceOf, spliced};
ghost use Rattle.nfs_ranges.specs.declared.limits.TheConstants.{RUN_LIMIT};

use crate::runs::Runs;
use crate::splice::Splice;
use crate::splices::splice_of;
use crate::{Mode, Piece, RUN_LIMIT, Range, RangesError};
use std::alloc::Global;
use std::marker::Model;

/// The bytes of a file that one lock owner holds, each in the mode of the last change that had it, as runs in order.
#[derive(Drop)]
pub struct Ranges {
    runs: Runs,
    // how many changes have room
    room: usize,
}

impl Model for Ranges {
    ghost use Rattle.std.specs.Prelude.{◌≤◌, ◌*◌, length};
    ghost use Rattle.nfs_ranges.specs.Merged.{IsMerged, in_order};
    ghost use Rattle.nfs_ranges.specs.Room.{IsRoomy};
    ghost use Rattle.nfs_ranges.specs.RoomyRanges.{RoomyRanges};
    ghost use Rattle.nfs_ranges.specs.declared.limits.TheConstants.{RUN_LIMIT};

    ghost Value = { RoomyRanges };

    ghost view = { λ r. record {
      pieces = in_order r.runs;
      room = r.room;
    } };

    ghost invariant = { λ r. IsMerged (in_order r.runs)
        × (length (in_order r.runs) ≤ RUN_LIMIT) × IsRoomy (3 * r.room) r.runs };
}

impl Ranges {
    /// No bytes, taking no memory.
    pub fn new(alloc: Global) -> Ranges
        ensures { result.pieces ≡ [] }
    {
        Ranges {
            runs: Runs::new(alloc),
            room: 0,
        }
    }

    /// Makes room, so that the next change takes no memory. After an error nothing has changed.
    pub fn reserve(&mut self) -> Result<(), RangesError>
        ensures pieces { self.new.pieces ≡ self.old.pieces }
        ensures room { OnOk result (0 < self.new.room) }
        ensures grows { self.old.room ≤ self.new.room }
        ensures ready { 0 < self.old.room → IsOk result }
        ensures memory { IfErr result (λ e. e ≡ RangesError.Memory) }
        ensures err { OnErr result (self.new ≡ self.old) }
    {
        if self.room == 0 {
            self.runs.reserve()?;
            self.room = 1;
        }
        Ok(())
    }

    /// Whether the runs after the change are no more than an owner may have: `lock` and `unlock` aren't full then.
    pub fn has_place_for(&self, change: Piece) -> bool
        ensures { result ≡ nat_le (runs (modes_after change self.now)) RUN_LIMIT }
    {
        splice_of(&self.runs, change).count_of(self.runs.len()) <= RUN_LIMIT
    }

    /// LOCK or LOCKU, as `lock` and `unlock`, where there is room and the runs aren't too many. It takes no memory.
    pub fn change(&mut self, change: Piece)
        requires room { 0 < self.old.room }
        requires place { runs (modes_after change self.old) ≤ RUN_LIMIT }
        ensures { modes_in self.new ≡ modes_after change self.old }
    {
        let splice = splice_of(&self.runs, change);
        self.runs.splice(splice);
        self.room -= 1;
    }

    /// The first byte of the range that is held in a mode that refuses this one to another owner, if there is one.
    pub fn first_conflict(&self, range: Range, mode: Mode) -> Option<u64>
        ensures { IsFirstConflict (modes_in self.now) range mode result }
    {
        self.runs.first_conflict(range, mode)
    }

    /// The run that has the byte, with its mode, if the byte is held.
    pub fn run_at(&self, byte: u64) -> Option<(Range, Mode)>
        ensures { IsRunAt (modes_in self.now) byte result }
    {
        let run = self.runs.find(byte)?;
        Some((run.range, run.mode?))
    }

    /// Whether no byte is held.
    pub fn is_empty(&self) -> bool
        ensures free { IsTrue result ↔ IsFree self.now }
        ensures count { IsTrue result ↔ (runs (modes_in self.now) ≡ 0) }
    {
        self.runs.len() == 0
    }
}
