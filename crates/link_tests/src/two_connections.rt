//! Tests that a listener's two connections are served at once, with a receipt for each.

ghost use Rattle.std.specs.Prelude.{◌≡◌, [], ℕ, IsFalse};
ghost use Rattle.nfs_owners.specs.Registry.{is_live};

use crate::client::converse;
use nfs_core::{Core, Seeds};
use nfs_threads::{RunEnd, serve_on};
use nfs_tree::Tree;
use std::alloc::Global;
use std::net::{Net, TcpListener, TcpStream};
use std::random::RandomSource;
use std::sync::Wait;
use std::sync::atomic::AtomicUsize;
use std::thread::Threads;
use std::time::{Clock, Duration};
use std::{io, thread};

// How many clients got the replies that are expected, how many connections were served to their end with a receipt
// each, and how many entries the journal has.
#[derive(Clone, Copy, Debug, PartialEq, Eq)]
struct Outcome {
    answered: u32,
    served: u32,
    entries: usize,
}

// Serves two clients at once that have these connections with the listener; none where memory was refused.
fn serve_two<
    R: Threads
        + Wait
        + Clock
        + Net<Listener = TcpListener, Stream = TcpStream>
        + RandomSource
        + Sync,
>(
    rt: &R,
    alloc: Global,
    listener: &TcpListener,
    clients: (&TcpStream, &TcpStream),
) -> Option<Outcome> {
    let Ok(tree) = Tree::from_toml(alloc, "file = [{ path = \"a\" }]") else {
        return None;
    };
    let tree = &tree;
    let Ok(seeds) = Seeds::new(rt) else {
        return None;
    };
    let Ok(core) = Core::new(alloc, tree, 90, 7, tree.policy(), seeds) else {
        return None;
    };
    let (first, second) = clients;
    let answered = &AtomicUsize::new(0);
    let (answered, served) = thread::join(
        rt,
        move || thread::join(
            rt,
            move || converse(rt, first, answered),
            move || converse(rt, second, answered),
        ),
        move || -> Option<(u32, usize)>
            requires { (core.journal.entries ≡ [])
                × ((number : ℕ) → IsFalse (is_live number core.stored.clients))
                × (core.journal.nodes ≡ tree.now.nodes) }
        {
            let run = serve_on(alloc, rt, listener, core, tree, 2).ok()?;
            let entries = run.core.journal().len();
            Some((count(&run), entries))
        },
    );
    let (served, entries) = served?;
    Some(Outcome {
        answered: u32::from(answered.0) + u32::from(answered.1),
        served,
        entries,
    })
}

// How many were served to the end, each with its own receipt.
fn count(run: &RunEnd) -> u32 {
    let mut served = 0u32;
    for (shift, receipts) in run.shifts.iter().zip(run.receipts.iter()) {
        let [connection] = shift.connections.as_slice() else {
            continue;
        };
        if connection.result == Ok(0) && receipts.len() == 1 {
            served = served.saturating_add(1);
        }
    }
    served
}

// A connection with the listener, in which no read waits for long.
fn connect(rt: &HostRuntime, listener: &TcpListener) -> io::Result<TcpStream> {
    let stream = TcpStream::connect(rt, listener.local_addr()?)?;
    stream.set_read_timeout(Some(Duration::from_secs(10)))?;
    Ok(stream)
}

#[test]
fn two_connections(rt: HostRuntime) -> io::Result<()> {
    let listener = TcpListener::bind(&rt, "127.0.0.1:0")?;
    let first = connect(&rt, &listener)?;
    let second = connect(&rt, &listener)?;
    let outcome = serve_two(&rt, rt.alloc(), &listener, (&first, &second));
    assert_eq!(&rt;
        outcome,
        Some(Outcome {
            answered: 2,
            served: 2,
            entries: 2
        })
    );
    Ok(())
}
