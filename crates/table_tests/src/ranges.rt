//! Bytes of a file that an owner locks and unlocks.

ghost use Rattle.std.specs.Prelude.{◌≤◌};

use nfs_ranges::{Mode, Range, Ranges, RangesError};
use std::test::Fail;

fn span(first: u64, last: u64) -> Range
    requires { first ≤ last }
{
    Range { first, last }
}

fn lock(ranges: &mut Ranges, range: Range, mode: Mode) -> Result<(), RangesError> {
    match ranges.lock(range, mode) {
        Err(RangesError::Memory) => ranges.lock(range, mode),
        answer => answer,
    }
}

fn unlock(ranges: &mut Ranges, range: Range) -> Result<(), RangesError> {
    match ranges.unlock(range) {
        Err(RangesError::Memory) => ranges.unlock(range),
        answer => answer,
    }
}

/// Bytes 0 to 99 are locked for writing, and every second ten of them unlocked: more changes than there is room for at
/// first. Then bytes 90 to 109 are locked for reading.
#[test]
fn locks_and_unlocks(rt: HostRuntime) -> Result<(), Fail> {
    let mut ranges = Ranges::new(rt.alloc());
    assert!(rt; ranges.is_empty());
    lock(&mut ranges, span(0, 99), Mode::Write)?;
    for place in 0..5_u64 {
        let first = place * 20 + 10;
        unlock(&mut ranges, span(first, first + 9))?;
    }
    lock(&mut ranges, span(90, 109), Mode::Read)?;
    assert!(rt; ranges.run_at(0) == Some((span(0, 9), Mode::Write)));
    assert!(rt; ranges.run_at(15).is_none());
    assert!(rt; ranges.run_at(89) == Some((span(80, 89), Mode::Write)));
    assert!(rt; ranges.run_at(90) == Some((span(90, 109), Mode::Read)));
    assert!(rt; ranges.first_conflict(span(15, 99), Mode::Read) == Some(20));
    assert!(rt; ranges.first_conflict(span(90, 109), Mode::Read).is_none());
    Ok(())
}

/// Bytes 0 to 9 are locked for reading, 5 to 14 for writing, and 10 to 19 for reading; and then 5 to 9 for reading, so
/// that all are one run.
#[test]
fn joins_runs_of_one_mode(rt: HostRuntime) -> Result<(), Fail> {
    let mut ranges = Ranges::new(rt.alloc());
    lock(&mut ranges, span(0, 9), Mode::Read)?;
    lock(&mut ranges, span(5, 14), Mode::Write)?;
    lock(&mut ranges, span(10, 19), Mode::Read)?;
    assert!(rt; ranges.run_at(12) == Some((span(10, 19), Mode::Read)));
    lock(&mut ranges, span(5, 9), Mode::Read)?;
    assert!(rt; ranges.run_at(0) == Some((span(0, 19), Mode::Read)));
    Ok(())
}

/// Runs stand in both lists of a `Ranges`, since byte 30 was locked last; the last byte of all is one of a run of two.
#[test]
fn runs_stand_around_a_change(rt: HostRuntime) -> Result<(), Fail> {
    let mut ranges = Ranges::new(rt.alloc());
    lock(&mut ranges, span(10, 10), Mode::Read)?;
    lock(&mut ranges, span(u64::MAX - 1, u64::MAX), Mode::Write)?;
    lock(&mut ranges, span(30, 30), Mode::Read)?;
    unlock(&mut ranges, span(u64::MAX, u64::MAX))?;
    lock(&mut ranges, span(20, 20), Mode::Write)?;
    assert!(rt; ranges.run_at(30) == Some((span(30, 30), Mode::Read)));
    assert!(rt; ranges.run_at(u64::MAX).is_none());
    assert!(rt;
        ranges.run_at(u64::MAX - 1) == Some((span(u64::MAX - 1, u64::MAX - 1), Mode::Write))
    );
    assert!(rt; ranges.first_conflict(span(0, u64::MAX), Mode::Read) == Some(20));
    Ok(())
}
