//! Ends a run of `serve`: writes the journal's file, and decides which fault is reported.

ghost use Rattle.std.specs.Prelude.{◌≡◌, ◌-◌, ◌^◌, ◌<◌, vec_capacity, IfSome, Option, Some};
ghost use Rattle.nfs_program.specs.Faults.{fault_of_ongoing_run, fault_of_run};
ghost use Rattle.nfs_server.specs.Device.{device_of_sink};
ghost use Rattle.nfs_program.specs.Once.{IsFiled, status_of};
ghost use Rattle.nfs_program.specs.Pieces.{HasRoomForFileOf};
ghost use Rattle.nfs_program.specs.declared.fault.Fault.{Fault};

use crate::faults::{ongoing_run_fault, run_fault};
use crate::line::Line;
use crate::memory_reach::tell_refusal;
use crate::{Draft, Reporter, exit_status, file_journal};
use nfs_server::Sink;
use nfs_threads::RunEnd;
use std::io::Write;
use std::sync::Wait;
use std::time::Clock;

/// Ends a run of connections by what it left. The file of the core's journal is written, also after a
/// fault, if there is a sink for it, by the memory of this buffer. Returns the program's exit status: 0, or 1 after a
/// fault. If nobody swept or nobody called clients back, the fault is that there was no memory for it; or else it is
/// that of the first connection in the list that had one, or else that of the journal's file. It is reported by a line
/// on `errors`, behind one that tells that the memory of the entries, of so many MiB, was full, if it was.
pub fn end_run<E: Write, J: Sink>(
    buffer: &mut Vec<u8>,
    run: &RunEnd,
    memory: Option<u32>,
    errors: &mut E,
    journal: &mut Option<J>,
) -> u8
    requires files { IfSome journal.old (λ sink. J.failures sink < 2 ^ 64 - 1) }
    // The file was seen to: memory for it was wanting only where the buffer had no room for a part of it. And the
    // status is that of the run's fault: that it had no helpers, or else the first of a connection, or else the file's.
    ensures ended { (filed : Option Fault)
        × IsFiled (device_of_sink J.takes J.fails) J.failures journal.old journal.new
        run.now.core.journal filed
        × (filed ≡ Some Fault.NoMemory
        → ¬ (HasRoomForFileOf (vec_capacity buffer.old) run.now.core.journal))
        × (result ≡ status_of (fault_of_run run.now.has_helpers run.now.shifts.items filed)) }
{
    let filed = file_journal(buffer, run.core.journal(), journal);
    let fault = run_fault(run.has_helpers, run.shifts.as_slice(), filed);
    tell_refusal(run.core.journal(), memory, errors);
    exit_status(errors, fault)
}

/// Ends a run that goes on, by what it left, likewise. What ended a connection is no fault of such a run: if it had its
/// helpers, and memory for a worker was there, the fault is that of the journal's file. Before that file is written,
/// the beginning of the journal is brought up to the last entry. Once it stands, the beginning is removed, unless the
/// file was made of it.
pub fn end_ongoing_run<R: Wait + Clock, D: Draft + Drop, J: Sink>(
    buffer: &mut Vec<u8>,
    run: &RunEnd,
    reporter: Reporter<'_, R, D>,
    journal: &mut Option<J>,
) -> u8
    requires files { IfSome journal.old (λ sink. J.failures sink < 2 ^ 64 - 1) }
    ensures ended { (filed : Option Fault)
        × IsFiled (device_of_sink J.takes J.fails) J.failures journal.old journal.new
        run.now.core.journal filed
        × (filed ≡ Some Fault.NoMemory
        → ¬ (HasRoomForFileOf (vec_capacity buffer.old) run.now.core.journal))
        × (result ≡ status_of (fault_of_ongoing_run run.now.has_helpers run.now.shifts.items filed)) }
{
    reporter.look_last(run.core.journal());
    let filed = file_journal(buffer, run.core.journal(), journal);
    let teller = reporter.end(filed);
    let fault = ongoing_run_fault(run.has_helpers, run.shifts.as_slice(), filed);
    let mut text = Line::new();
    let status = exit_status(&mut text, fault);
    teller.tell(&text);
    status
}
