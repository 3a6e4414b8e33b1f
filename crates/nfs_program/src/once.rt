//! The run of `once`: one input is served, the journal's file is written, and a fault is reported.

ghost use Rattle.std.specs.Prelude.{◌≡◌, ◌-◌, ◌^◌, ◌<◌, ◌↔◌, ◌⊎◌, ℕ, Option, None, Result, Err, IfSome, IsErrOf, IsFalse};
ghost use Rattle.std.specs.Option.{option_or};
ghost use Rattle.nfs_owners.specs.Registry.{is_live};
ghost use Rattle.nfs_server.specs.Connection.{HasCourse, scene};
ghost use Rattle.nfs_server.specs.Device.{device_of_sink};
ghost use Rattle.nfs_server.specs.Exchange.{rules};
ghost use Rattle.nfs_server.specs.Serves.{exported, served_by};
ghost use Rattle.nfs_program.specs.Once.{IsFiled, fault_of, status_of};
ghost use Rattle.nfs_server.specs.declared.clock.Stopped.{Stopped};
ghost use Rattle.nfs_program.specs.declared.fault.Fault.{Fault};
ghost use Rattle.nfs_server.specs.declared.serve_error.ServeError.{ServeError};
ghost use Rattle.nfs_server.specs.Leases.{IsLent, LentCore};

use crate::journal_file::{file_buffer, file_journal};
use crate::{Fault, exit_status};
use nfs_core::{Core, Moment};
use nfs_server::{Clock, Duplex, Lent, ServeError, Service, Sink, Stopped, serve_duplex};
use nfs_tree::Tree;
use std::alloc::Global;
use std::io::Write;

/// Serves one input to its end, with this core, in which no client is live, and the tree for which the core was made.
/// All calls come at the moment `now`. At the end, also after a fault, the file of the core's journal is written, if
/// there is a sink for it. Returns the program's exit status: 0, or 1 after a fault, the first of which is reported by
/// a line on `errors`.
pub fn run_once<D: Duplex, E: Write, J: Sink>(
    alloc: Global,
    core: Core,
    tree: &Tree,
    now: Moment,
    device: &mut D,
    errors: &mut E,
    journal: &mut Option<J>,
) -> u8
    requires reads { D.read_failures device.old < 2 ^ 64 - 1 }
    requires writes { D.write_failures device.old < 2 ^ 64 - 1 }
    requires files { IfSome journal.old (λ sink. J.failures sink < 2 ^ 64 - 1) }
    requires tree { core.journal.nodes ≡ tree.now.nodes }
    requires policy { core.journal.policy ≡ tree.now.policy }
    requires clients { (number : ℕ) → IsFalse (is_live number core.stored.clients) }
    // The input was served as one connection at this moment, starting from this core; then it was seen to the file of
    // the journal that the core has at the end; and the status says how both ended. Or memory ran out before anything
    // was read or written.
    ensures served { (outcome : Result ℕ ServeError) × (filed : Option Fault)
        × (((lent : LentCore) × (clock : Stopped) × (lent' : LentCore) × (clock' : Stopped)
        × (lent.core ≡ core) × IsLent core lent.book × (clock.moment ≡ now)
        × HasCourse D.device
        (rules (exported tree.now (served_by lent.core.journal)) ⟦<Lent as Service>⟧.gives
        ⟦<Lent as Service>⟧.alike ⟦<Stopped as Clock>⟧.tells)
        (scene device.old lent clock) outcome (scene device.new lent' clock')
        × IsFiled (device_of_sink J.takes J.fails) J.failures journal.old journal.new
        lent'.core.journal filed)
        ⊎ ((outcome ≡ Err ServeError.Memory) × (filed ≡ None)
        × (device.new ≡ device.old) × (journal.new ≡ journal.old)))
        × (IsErrOf outcome ServeError.Read
        ↔ D.read_failures device.old < D.read_failures device.new)
        × (IsErrOf outcome ServeError.Write
        ↔ D.write_failures device.old < D.write_failures device.new)
        × (result ≡ status_of (option_or (fault_of outcome) filed)) }
{
    let Ok(mut buffer) = file_buffer(alloc, journal) else {
        return exit_status(errors, Some(Fault::NoMemory));
    };
    let Ok(mut lent) = Lent::new(alloc, core) else {
        return exit_status(errors, Some(Fault::NoMemory));
    };
    let mut clock = Stopped::at(now);
    let outcome = serve_duplex(alloc, device, &mut lent, tree, &mut clock);
    let core = lent.into_core();
    let filed = file_journal(&mut buffer, core.journal(), journal);
    exit_status(errors, Fault::of(outcome).or(filed))
}
