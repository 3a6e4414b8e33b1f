//! Computes which runs a change replaces, cuts and joins.

ghost use Rattle.std.specs.Prelude.{◌≡◌, ◌≤◌, ◌<◌, ◌+◌, IfSome, length};
ghost use Rattle.nfs_ranges.specs.Merged.{IsMerged, ended, in_order};
ghost use Rattle.nfs_ranges.specs.Splices.{IsFirstWith, IsLastWith, IsRestBefore, IsRestBehind, IsRunOver, IsSpliceOf};
ghost use Rattle.nfs_ranges.specs.declared.limits.TheConstants.{RUN_LIMIT};

use crate::mode::are_alike;
use crate::runs::Runs;
use crate::splice::{Splice, one_if};
use crate::{Piece, Range};

/// The splice by which the change is made.
pub(crate) fn splice_of(runs: &Runs, change: Piece) -> Splice
    requires few { length (in_order runs.now) ≤ RUN_LIMIT }
    requires merged { IsMerged (in_order runs.now) }
    ensures { IsSpliceOf change (in_order runs.now) result }
{
    let first = first_with(runs, change);
    let last = last_with(runs, change);
    let start = runs.count_ended(first);
    let next = count_until(runs, last);
    let left = rest_before(runs.get(start), first);
    let run = run_over(change, first, last);
    let right = rest_behind(runs.get(next), last);
    let stop = next + one_if(right.is_some());
    Splice {
        start,
        left,
        run,
        right,
        stop,
    }
}

// Where the run of the change begins: with one of its mode that touches it, or has its first byte, or where it does.
fn first_with(runs: &Runs, change: Piece) -> u64
    requires few { length (in_order runs.now) ≤ RUN_LIMIT }
    requires merged { IsMerged (in_order runs.now) }
    ensures { IsFirstWith change (in_order runs.now) result }
{
    let first = change.range.first;
    if first == 0 {
        return first;
    }
    match runs.find(first - 1) {
        Some(run) if are_alike(run.mode, change.mode) => run.range.first,
        _ => first,
    }
}

// Where the run of the change ends.
fn last_with(runs: &Runs, change: Piece) -> u64
    requires few { length (in_order runs.now) ≤ RUN_LIMIT }
    requires merged { IsMerged (in_order runs.now) }
    ensures { IsLastWith change (in_order runs.now) result }
{
    let last = change.range.last;
    if last == u64::MAX {
        return last;
    }
    match runs.find(last + 1) {
        Some(run) if are_alike(run.mode, change.mode) => run.range.last,
        _ => last,
    }
}

// How many runs end with the byte, or before it.
fn count_until(runs: &Runs, byte: u64) -> usize
    requires few { length (in_order runs.now) ≤ RUN_LIMIT }
    requires merged { IsMerged (in_order runs.now) }
    ensures { result ≡ ended (byte + 1) (in_order runs.now) }
{
    if byte < u64::MAX {
        runs.count_ended(byte + 1)
    } else {
        runs.len()
    }
}

// The run of the change, if it makes one.
fn run_over(change: Piece, first: u64, last: u64) -> Option<Piece>
    requires { first ≤ last }
    ensures { IsRunOver change first last result }
{
    let mode = change.mode?;
    Some(Piece {
        range: Range { first, last },
        mode: Some(mode),
    })
}

// What the run has before the end.
fn rest_before(run: Option<Piece>, end: u64) -> Option<Piece>
    ensures { IsRestBefore end run result }
{
    let run = run?;
    if end <= run.range.first {
        return None;
    }
    let range = Range {
        first: run.range.first,
        last: end - 1,
    };
    Some(Piece {
        range,
        mode: run.mode,
    })
}

// What the run, which ends behind the byte, has there.
fn rest_behind(run: Option<Piece>, byte: u64) -> Option<Piece>
    requires { IfSome run (λ p. byte < p.range.last) }
    ensures { IsRestBehind byte run result }
{
    let run = run?;
    if byte < run.range.first {
        return None;
    }
    let range = Range {
        first: byte + 1,
        last: run.range.last,
    };
    Some(Piece {
        range,
        mode: run.mode,
    })
}
