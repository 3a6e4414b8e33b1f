//! The subcommand `serve`: makes tree, core and listener, serves the connections by threads, and ends with the
//! journal's file.

ghost use Rattle.std.specs.Prelude.{◌≡◌, [], ℕ, IsFalse};
ghost use Rattle.nfs_options.specs.CommandLine.{IsServeWithinLimits};
ghost use Rattle.nfs_owners.specs.Registry.{is_live};

use crate::inputs::{core_of, journal_file, tree};
use crate::listening::Listening;
use crate::ongoing::serve_ongoing;
use crate::report;
use crate::stand_ins::StandIns;
use nfs_core::Core;
use nfs_options::ServeOptions;
use nfs_program::{Fault, end_run, file_buffer};
use nfs_threads::serve_on;
use nfs_tree::Tree;
use std::net::{Net, TcpListener, TcpStream};
use std::sync::Wait;
use std::thread::Threads;
use std::time::Clock;

/// `nfs4state serve`: connections of a TCP listener, and the journal to its file at the end. `threads` is what threads
/// are started and waited for by; it is of a type parameter, since it goes to those threads.
pub(crate) fn serve<
    R: Threads
        + Wait
        + Clock
        + Net<Listener = TcpListener, Stream = TcpStream>
        + Copy
        + Send
        + Sync
        + 'static,
>(rt: &HostRuntime, threads: R, options: &ServeOptions<'_>) -> u8
    requires { IsServeWithinLimits options.now }
{
    let tree = match tree(rt, options.tree) {
        Ok(tree) => tree,
        Err(fault) => return report(rt, fault),
    };
    match core_of(rt, &tree, options.lease, options.epoch) {
        Ok(mut core) => {
            bound_memory(&mut core, options.memory);
            serve_core(rt, threads, options, core, &tree)
        }
        Err(fault) => report(rt, fault),
    }
}

// Bounds the memory of the core's entries by so many MiB, if there is to be a bound.
fn bound_memory(core: &mut Core, memory: Option<u32>)
    ensures { core.new ≡ core.old }
{
    if let Some(memory) = memory {
        core.set_memory_limit(u64::from(memory) * 1_048_576);
    }
}

// Serves this core at the address that the options name.
fn serve_core<
    R: Threads
        + Wait
        + Clock
        + Net<Listener = TcpListener, Stream = TcpStream>
        + Copy
        + Send
        + Sync
        + 'static,
>(rt: &HostRuntime, threads: R, options: &ServeOptions<'_>, core: Core, tree: &Tree) -> u8
    requires empty { core.journal.entries ≡ [] }
    requires nobody { (number : ℕ) → IsFalse (is_live number core.stored.clients) }
    requires nodes { core.journal.nodes ≡ tree.now.nodes }
{
    // In a run that goes on, lines are written at any time, also while files are opened and closed.
    let stand_ins = match options.until {
        None => StandIns::none(),
        Some(_) => StandIns::of(rt),
    };
    let status = match Listening::at(rt, options.listen) {
        Ok(listening) => match options.until {
            None => serve_connections(rt, &threads, options, &listening, core, tree),
            Some(_) => serve_ongoing(rt, threads, options, listening, core, tree),
        },
        Err(fault) => {
            drop(core);
            report(rt, fault)
        }
    };
    drop(stand_ins);
    status
}

// Serves so many connections, each in a thread of its own.
fn serve_connections<
    R: Threads + Wait + Clock + Net<Listener = TcpListener, Stream = TcpStream> + Sync,
>(
    rt: &HostRuntime,
    threads: &R,
    options: &ServeOptions<'_>,
    listening: &Listening,
    core: Core,
    tree: &Tree,
) -> u8
    requires empty { core.journal.entries ≡ [] }
    requires nobody { (number : ℕ) → IsFalse (is_live number core.stored.clients) }
    requires nodes { core.journal.nodes ≡ tree.now.nodes }
{
    listening.tell(rt, rt, tree, options);
    let alloc = rt.alloc();
    let mut journal = journal_file(rt, options.journal, rt);
    let Ok(mut buffer) = file_buffer(alloc, &journal) else {
        drop(core);
        return report(rt, Fault::NoMemory);
    };
    let listener = &listening.listener;
    match serve_on(alloc, threads, listener, core, tree, options.connections) {
        Ok(run) => {
            let mut errors = rt.stderr();
            let memory = options.memory;
            let status = end_run(&mut buffer, &run, memory, &mut errors, &mut journal);
            drop(run);
            status
        }
        Err(core) => {
            drop(core);
            report(rt, Fault::NoMemory)
        }
    }
}
