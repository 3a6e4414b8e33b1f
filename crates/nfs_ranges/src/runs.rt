//! Keeps an owner's runs in two lists, so that a change near the last one moves few runs.

ghost use Rattle.std.specs.Prelude.{◌≡◌, ◌≤◌, ◌<◌, ◌+◌, ℕ, [], IsFalse, IsTrue, OnOk, drop, find, length, slice_get, vec_len};
ghost use Rattle.nfs_ranges.specs.Bytes.{has};
ghost use Rattle.nfs_ranges.specs.Merged.{IsMerged, ended, in_order};
ghost use Rattle.nfs_ranges.specs.Modes.{modes_of};
ghost use Rattle.nfs_ranges.specs.Questions.{IsFirstConflict, stops};
ghost use Rattle.nfs_ranges.specs.Room.{HaveCapacityOf, IsRoomy};
ghost use Rattle.nfs_ranges.specs.Splices.{spliced};
ghost use Rattle.nfs_ranges.specs.declared.limits.TheConstants.{RUN_LIMIT};

use crate::shifts::{push_some, shift};
use crate::splice::Splice;
use crate::stops::{first_stop, last_stop};
use crate::{Mode, Piece, Range};
use std::alloc::{AllocError, Global};

/// Runs in order, as two lists with the place of the last change between them, so that a change at that place moves no
/// others: the runs before it, and those behind it, the first of which is the last of its list.
#[derive(Drop)]
pub(crate) struct Runs {
    pub before: Vec<Piece>,
    pub behind: Vec<Piece>,
}

impl Runs {
    /// No runs, taking no memory.
    pub fn new(alloc: Global) -> Runs
        ensures runs { in_order result ≡ [] }
        ensures room { IsRoomy 0 result }
    {
        Runs {
            before: Vec::new(alloc),
            behind: Vec::new(alloc),
        }
    }

    /// How many runs there are.
    pub fn len(&self) -> usize
        requires few { length (in_order self.now) ≤ RUN_LIMIT }
        ensures { result ≡ length (in_order self.now) }
    {
        self.before.len() + self.behind.len()
    }

    /// The run at this place of the order, if there are so many.
    pub fn get(&self, place: usize) -> Option<Piece>
        ensures { result ≡ slice_get (in_order self.now) place }
    {
        let count = self.before.len();
        if place < count {
            return Some(self.before[place]);
        }
        if place - count < self.behind.len() {
            return Some(self.behind[self.behind.len() - 1 - (place - count)]);
        }
        None
    }

    /// How many end before the byte, found beside the place of the last change or by halving.
    pub fn count_ended(&self, byte: u64) -> usize
        requires few { length (in_order self.now) ≤ RUN_LIMIT }
        requires merged { IsMerged (in_order self.now) }
        ensures { result ≡ ended byte (in_order self.now) }
    {
        let (mut low, mut high) = self.between(byte);
        'halving: loop {
            if low >= high {
                return low;
            }
            let middle = low + (high - low) / 2;
            if self.is_ended(middle, byte) {
                low = middle + 1;
            } else {
                high = middle;
            }
        }
    }

    // Two numbers between which that of the runs that end before the byte is: one number, where it is that of the runs
    // before the place of the last change, or one more.
    fn between(&self, byte: u64) -> (usize, usize)
        requires few { length (in_order self.now) ≤ RUN_LIMIT }
        requires merged { IsMerged (in_order self.now) }
        ensures low { result.0 ≤ ended byte (in_order self.now) }
        ensures high { ended byte (in_order self.now) ≤ result.1 }
        ensures bound { result.1 ≤ length (in_order self.now) }
    {
        let place = self.before.len();
        if place > 0 && !self.is_ended(place - 1, byte) {
            return (0, place - 1);
        }
        if !self.is_ended(place, byte) {
            return (place, place);
        }
        if !self.is_ended(place + 1, byte) {
            return (place + 1, place + 1);
        }
        (place + 2, self.len())
    }

    // Whether there is a run at this place of the order, and it ends before the byte.
    fn is_ended(&self, place: usize, byte: u64) -> bool
        requires merged { IsMerged (in_order self.now) }
        ensures some { IsTrue result → place < ended byte (in_order self.now) }
        ensures none { IsFalse result → ended byte (in_order self.now) ≤ place }
    {
        match self.get(place) {
            Some(run) => run.range.last < byte,
            None => false,
        }
    }

    /// The run that has the byte, if the byte is held.
    pub fn find(&self, byte: u64) -> Option<Piece>
        requires few { length (in_order self.now) ≤ RUN_LIMIT }
        requires merged { IsMerged (in_order self.now) }
        ensures { result ≡ find (λ p. has p.range byte) (in_order self.now) }
    {
        let run = self.get(self.count_ended(byte))?;
        if run.range.first <= byte {
            Some(run)
        } else {
            None
        }
    }

    /// The first byte of the range that is held in a mode that refuses the one asked, if there is one.
    pub fn first_conflict(&self, range: Range, asked: Mode) -> Option<u64>
        requires few { length (in_order self.now) ≤ RUN_LIMIT }
        requires merged { IsMerged (in_order self.now) }
        ensures { IsFirstConflict (modes_of (in_order self.now)) range asked result }
    {
        let run = self.first_stop(self.count_ended(range.first), range.last, asked)?;
        if range.last < run.range.first {
            None
        } else {
            Some(run.range.first.max(range.first))
        }
    }

    // The first run from this place of the order on that begins behind the byte, or refuses the mode.
    fn first_stop(&self, place: usize, last: u64, asked: Mode) -> Option<Piece>
        requires { place ≤ length (in_order self.now) }
        ensures { result ≡ find (stops last asked) (drop place (in_order self.now)) }
    {
        let count = self.before.len();
        if place >= count {
            return last_stop(
                &self.behind,
                self.behind.len() - (place - count),
                last,
                asked,
            );
        }
        match first_stop(&self.before[place..], last, asked) {
            Some(run) => Some(run),
            None => last_stop(&self.behind, self.behind.len(), last, asked),
        }
    }

    /// Makes room in both lists for three more than there are, so that a splice takes no memory.
    pub fn reserve(&mut self) -> Result<(), AllocError>
        requires few { length (in_order self.old) ≤ RUN_LIMIT }
        ensures runs { in_order self.new ≡ in_order self.old }
        ensures room { OnOk result (IsRoomy 3 self.new) }
        ensures grows { (room : ℕ) → IsRoomy room self.old → IsRoomy room self.new }
    {
        let count = self.len() + 3;
        self.before.reserve(count - self.before.len())?;
        self.behind.reserve(count - self.behind.len())
    }

    /// The runs after the splice, for which there is room.
    pub fn splice(&mut self, splice: Splice)
        requires few { length (in_order self.old) ≤ RUN_LIMIT }
        requires order { splice.start ≤ splice.stop }
        requires end { splice.stop ≤ length (in_order self.old) }
        requires room { IsRoomy 3 self.old }
        ensures runs { in_order self.new ≡ spliced splice (in_order self.old) }
        ensures room { (more : ℕ) → IsRoomy (3 + more) self.old → IsRoomy more self.new }
    {
        let count = self.len() - splice.stop;
        self.divide(splice.start);
        self.behind.truncate(count);
        push_some(&mut self.behind, splice.right);
        push_some(&mut self.behind, splice.run);
        push_some(&mut self.behind, splice.left);
    }

    // Moves runs from one list to the other, until so many stand before the place of a change.
    fn divide(&mut self, start: usize)
        requires start { start ≤ length (in_order self.old) }
        requires room { IsRoomy 0 self.old }
        ensures runs { in_order self.new ≡ in_order self.old }
        ensures start { vec_len self.new.before ≡ start }
        ensures room { HaveCapacityOf self.old self.new }
    {
        let count = self.before.len();
        if start < count {
            shift(&mut self.before, &mut self.behind, count - start);
        } else {
            shift(&mut self.behind, &mut self.before, start - count);
        }
    }
}
