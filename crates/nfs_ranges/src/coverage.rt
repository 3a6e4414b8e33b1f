//! The question by which locks are taken over: whether an owner holds all bytes of a range.
ghost use Rattle.std.specs.Prelude.{◌≡◌, ◌↔◌, IsTrue, find};
ghost use Rattle.nfs_ranges.specs.Covering.{Covers, gives};

use crate::{Mode, Piece, Range};

/// Whether each byte of the range is in one of these runs in the mode, or for writing. The runs may come from several
/// lists, in any order.
pub fn covers(runs: &[Piece], range: Range, mode: Mode) -> bool
    ensures { IsTrue result ↔ Covers runs.now range mode }
{
    let mut byte = range.first;
    'walk: loop {
        let Some(run) = run_with(runs, byte, mode) else {
            return false;
        };
        if range.last <= run.range.last {
            return true;
        }
        byte = run.range.last + 1;
    }
}

// The first run that has the byte in the mode, or for writing.
fn run_with(runs: &[Piece], byte: u64, mode: Mode) -> Option<Piece>
    ensures { result ≡ find (gives mode byte) runs.now }
{
    for run in runs {
        if run.range.has(byte) && mode.is_met_by(run.mode) {
            return Some(*run);
        }
    }
    None
}
