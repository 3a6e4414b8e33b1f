//! Chooses the fault that a run reports, if several connections, threads or files failed.

ghost use Rattle.std.specs.Prelude.{◌≡◌, map};
ghost use Rattle.nfs_program.specs.Faults.{fault_of_ongoing_run, fault_of_run, first_fault_of, first_fault_of_shifts, is_each_refused};

use crate::Fault;
use nfs_threads::{ConnectionEnd, Shift};

/// The fault of the first connection that ended with one, in the order of the list.
pub fn first_fault(connections: &[ConnectionEnd]) -> Option<Fault>
    ensures { result ≡ first_fault_of connections.now }
{
    for ended in connections {
        if let Some(fault) = Fault::of(ended.result) {
            return Some(fault);
        }
    }
    None
}

// The first fault of a worker, in the order of the list: that of its first connection that ended with one, or else that
// memory or a thread was refused for it.
fn first_fault_of_shifts(shifts: &[Shift]) -> Option<Fault>
    ensures { result ≡ first_fault_of_shifts shifts.now }
{
    for shift in shifts {
        if let Some(first) = first_fault(shift.connections.as_slice()) {
            return Some(first);
        }
        if shift.end.is_err() {
            return Some(Fault::NoMemory);
        }
    }
    None
}

// Whether memory or a thread was refused for each of the workers, so that none served.
fn is_each_refused(shifts: &[Shift]) -> bool
    ensures { result ≡ is_each_refused shifts.now }
{
    shifts.iter().all(|shift| shift.end.is_err())
}

/// The fault of a run: that nobody swept or nobody called clients back, since no thread could be made for that; or else
/// the first of a worker, in the order of the list; or else that of the journal's file.
pub(crate) fn run_fault(has_helpers: bool, shifts: &[Shift], filed: Option<Fault>) -> Option<Fault>
    ensures { result ≡ fault_of_run has_helpers shifts.now filed }
{
    if has_helpers {
        first_fault_of_shifts(shifts).or(filed)
    } else {
        Some(Fault::NoMemory)
    }
}

/// The fault of a run that goes on, of which none of its connections has a part: that memory or a thread was refused
/// for each worker, for the sweeps or for callbacks; or else that of the journal's file.
pub(crate) fn ongoing_run_fault(
    has_helpers: bool,
    shifts: &[Shift],
    filed: Option<Fault>,
) -> Option<Fault>
    ensures { result ≡ fault_of_ongoing_run has_helpers shifts.now filed }
{
    if !has_helpers || is_each_refused(shifts) {
        return Some(Fault::NoMemory);
    }
    filed
}
