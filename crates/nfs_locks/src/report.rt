//! Finds the conflicting lock that LOCK and LOCKT report.

ghost use Rattle.std.specs.Prelude.{◌≡◌, [], ◌∷◌, Some, option_map};
ghost use Rattle.nfs_locks.specs.KeptLocks.{states_of};
ghost use Rattle.nfs_locks.specs.Report.{IsMeeting, IsReport};
ghost use Rattle.nfs_locks.specs.ReportSeen.{comes_before, first_of, meeting_seen, report_seen};
ghost use Rattle.nfs_locks.specs.StoredLocks.{lock_seen, locks_seen};
ghost use Rattle.nfs_ranges.specs.Questions.{IsFirstConflict};
ghost use Rattle.nfs_ranges.specs.RoomyRanges.{modes_in};

use crate::LockState;
use crate::owner_order::owner_order;
use nfs_forms::LockOwner;
use nfs_ranges::{Mode, Range};
use nfs_rows::Rows;

/// The lock that is in the way of another one: the bytes that its owner holds in one mode round the first byte where it
/// is.
#[derive(Clone, Copy)]
pub struct Report<'a> {
    pub range: Range,
    pub mode: Mode,
    pub owner: &'a LockOwner,
}

/// A report, and the first byte that is refused.
#[derive(Clone, Copy)]
pub(crate) struct Meeting<'a> {
    pub byte: u64,
    pub report: Report<'a>,
}

/// The lock that is in the way of the owner's lock of the range in this mode, if there is one.
pub(crate) fn report_among<'a>(
    states: &'a Rows<LockState>,
    owner: &LockOwner,
    range: Range,
    mode: Mode,
) -> Option<Report<'a>>
    ensures { IsReport (locks_seen (states_of states.now.rows)) owner.now range mode
        (option_map report_seen result) }
{
    let meeting = meeting_among(states, owner, range, mode)?;
    Some(meeting.report)
}

// The first byte that is refused, with the report.
fn meeting_among<'a>(
    states: &'a Rows<LockState>,
    owner: &LockOwner,
    range: Range,
    mode: Mode,
) -> Option<Meeting<'a>>
    ensures { IsMeeting (locks_seen (states_of states.now.rows)) owner.now range mode
        (option_map meeting_seen result) }
{
    let mut first = None;
    for (_, state) in states.iter() {
        if let Some(byte) = state.ranges.first_conflict(range, mode) {
            first = first_of(first, meeting_at(state, owner, range, mode, byte));
        }
    }
    first
}

// The first byte that this lock state refuses, with the report of it, where this byte is the first in the way of
// another owner.
fn meeting_at<'a>(
    state: &'a LockState,
    owner: &LockOwner,
    range: Range,
    mode: Mode,
    byte: u64,
) -> Option<Meeting<'a>>
    requires { IsFirstConflict (modes_in state.now.ranges) range mode (Some byte) }
    ensures { IsMeeting (lock_seen state.now ∷ []) owner.now range mode
        (option_map meeting_seen result) }
{
    if state.is_of(owner) {
        return None;
    }
    let (run, held) = state.ranges.run_at(byte)?;
    Some(Meeting {
        byte,
        report: Report {
            range: run,
            mode: held,
            owner: &state.owner,
        },
    })
}

// The one of two meetings that comes before the other.
fn first_of<'a>(a: Option<Meeting<'a>>, b: Option<Meeting<'a>>) -> Option<Meeting<'a>>
    ensures { option_map meeting_seen result
        ≡ first_of (option_map meeting_seen a.entry) (option_map meeting_seen b.entry) }
{
    match (a, b) {
        (None, b) => b,
        (a, None) => a,
        (Some(a), Some(b)) => Some(if comes_before(b, a) { b } else { a }),
    }
}

// Whether the first meeting is at an earlier byte, or at the same byte with an owner that comes first.
fn comes_before(a: Meeting<'_>, b: Meeting<'_>) -> bool
    ensures { result ≡ comes_before (meeting_seen a.entry) (meeting_seen b.entry) }
{
    a.byte < b.byte || (a.byte == b.byte && owner_order(a.report.owner, b.report.owner).is_lt())
}
