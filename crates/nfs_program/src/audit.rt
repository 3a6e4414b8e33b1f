//! The audit of a journal's file.

ghost use Rattle.std.specs.Prelude.{Result, ℕ, ◌-◌, ◌^◌, ◌<◌};
ghost use Rattle.nfs_journal.specs.declared.audit_error.AuditError.{AuditError};
ghost use Rattle.nfs_program.specs.Audit.{IsTold, IsAudit};
ghost use Rattle.nfs_server.specs.Device.{device_of_sink};

use crate::Fault;
use nfs_core::Seeds;
use nfs_journal::{AuditError, audit, read_journal};
use nfs_server::{DeviceFailed, Sink, write_to};
use std::alloc::Global;
use std::io::Write;

/// Tells whether these bytes are the file of a lawful journal, one in which each answer is the one that the rules give.
/// Returns the program's exit status: 0 after the line `lawful: K entries` on `sink`, with the number of its entries,
/// or 1 after a fault, which is reported by a line on `errors`.
pub fn run_audit<W: Sink, E: Write>(
    alloc: Global,
    bytes: &[u8],
    seeds: Seeds,
    sink: &mut W,
    errors: &mut E,
) -> u8
    requires writes { W.failures sink.old < 2 ^ 64 - 1 }
    ensures { (verdict : Result ℕ AuditError) × IsAudit bytes.now verdict
        × IsTold (device_of_sink W.takes W.fails) W.failures sink.old sink.new verdict result }
{
    let count = match audit_of(alloc, bytes, seeds) {
        Ok(count) => count,
        Err(error) => return Fault::from(error).report(errors),
    };
    let Ok(line) = format!(in alloc; "lawful: {count} entries\n") else {
        return Fault::NoMemory.report(errors);
    };
    match write_to(sink, line.as_bytes()) {
        Ok(()) => 0,
        Err(DeviceFailed) => Fault::OutputNotWritten.report(errors),
    }
}

// How many entries the lawful journal has whose file these bytes are.
fn audit_of(alloc: Global, bytes: &[u8], seeds: Seeds) -> Result<usize, AuditError>
    ensures { IsAudit bytes.now result }
{
    let journal = read_journal(alloc, bytes)?;
    let core = audit(alloc, journal, seeds)?;
    Ok(core.journal().len())
}
