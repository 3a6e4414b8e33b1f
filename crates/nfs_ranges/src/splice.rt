//! Describes a change of the runs by what it replaces, before anything is changed.

ghost use Rattle.std.specs.Prelude.{◌≡◌, ◌≤◌, List, length, if◌then◌else◌};
ghost use Rattle.nfs_ranges.specs.Splices.{spliced};
ghost use Rattle.nfs_ranges.specs.declared.limits.TheConstants.{RUN_LIMIT};
ghost use Rattle.nfs_ranges.specs.declared.piece.Piece.{Piece};

use crate::Piece;

/// What a change makes of the runs: those before the start stay, and those from the stop on; in place of the others
/// stand what is left of the first of them, the run of the change, and what is left of the last, as far as there are
/// any.
#[derive(Clone, Copy)]
pub(crate) struct Splice {
    pub start: usize,
    pub left: Option<Piece>,
    pub run: Option<Piece>,
    pub right: Option<Piece>,
    pub stop: usize,
}

impl Splice {
    /// How many runs there are after it, where there are so many before it.
    pub fn count_of(self, count: usize) -> usize
        requires few { count ≤ RUN_LIMIT }
        requires start { self.start ≤ self.stop }
        requires stop { self.stop ≤ count }
        ensures { (ps : List Piece) → length ps ≡ count → result ≡ length (spliced self ps) }
    {
        let rest = count - self.stop + one_if(self.right.is_some()) + one_if(self.run.is_some());
        self.start + one_if(self.left.is_some()) + rest
    }
}

/// 1 for what is there.
pub(crate) fn one_if(there: bool) -> usize
    ensures { result ≡ (if there then 1 else 0) }
{
    if there { 1 } else { 0 }
}
