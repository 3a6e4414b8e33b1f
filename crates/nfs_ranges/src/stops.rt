//! Searches runs for the first that conflicts with a lock.

ghost use Rattle.std.specs.Prelude.{◌≡◌, ◌≤◌, find, length, reverse, take};
ghost use Rattle.nfs_ranges.specs.Questions.{stops};

use crate::{Mode, Piece};

/// The first run that begins behind the byte, or refuses the mode.
pub(crate) fn first_stop(runs: &[Piece], last: u64, asked: Mode) -> Option<Piece>
    ensures { result ≡ find (stops last asked) runs.now }
{
    for run in runs {
        if stops(*run, last, asked) {
            return Some(*run);
        }
    }
    None
}

/// The last one of the first so many runs that begins behind the byte, or refuses the mode.
pub(crate) fn last_stop(runs: &[Piece], count: usize, last: u64, asked: Mode) -> Option<Piece>
    requires { count ≤ length runs.now }
    ensures { result ≡ find (stops last asked) (reverse (take count runs.now)) }
{
    let mut left = count;
    'walk: loop {
        if left == 0 {
            return None;
        }
        left -= 1;
        if stops(runs[left], last, asked) {
            return Some(runs[left]);
        }
    }
}

// Whether the run begins behind the byte, or refuses the mode.
fn stops(run: Piece, last: u64, asked: Mode) -> bool
    ensures { result ≡ stops last asked run }
{
    last < run.range.first || asked.conflicts_with(run.mode)
}
