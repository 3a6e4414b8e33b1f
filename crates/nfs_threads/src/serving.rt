//! Serves links at once, with a thread for each, and waits for all of them.

ghost use Rattle.std.specs.Prelude.{◌≡◌, ◌≤◌, List, [], length, vec_capacity, vec_len, IfOk, IfErr};
ghost use Rattle.nfs_threads.specs.WorkerThread.{AreWorkers};
ghost use Rattle.nfs_threads.specs.Worker.{AreEndsOf, AreUnused, linking, seats_of};
ghost use Rattle.nfs_shared.specs.Seats.{SeatView};
ghost use Rattle.nfs_tree.specs.Tree.{Files};
ghost use Rattle.nfs_server.specs.Serves.{served_by};

use crate::worker::Common;
use crate::worker_thread::{Worker, begin, finish};
use crate::{Links, Retry, WorkerEnd};
use nfs_shared::{Naming, Seat, Shared};
use nfs_tree::Tree;
use std::alloc::{AllocError, Global};
use std::sync::Wait;
use std::sync::atomic::AtomicBool;
use std::thread;
use std::thread::{Scope, Threads};

/// Serves these links, each at its seat in a thread of its own. All threads are begun before the first is waited for,
/// and what each worker gives back stands in the order of the links. If memory is refused for the lists, nothing begins
/// and the links come back. The thread of a worker is tried as often as `retry` says, before the next worker begins. A
/// worker for which no thread can be made gives its seat back, and took no connection.
pub fn serve_all<
    N: Naming + Send + Sync,
    L: Links + Drop + Send,
    R: Threads + Wait + Sync,
    Y: Retry,
>(
    alloc: Global,
    rt: &R,
    retry: &Y,
    shared: &Shared<N>,
    tree: &Tree,
    links: Vec<(L, Seat<N>)>,
) -> Result<Vec<WorkerEnd<N>>, Vec<(L, Seat<N>)>>
    requires tree { N.start.nodes ≡ tree.now.nodes }
    requires unused { AreUnused (seats_of links.items) }
    ensures ends { IfOk result (λ ends. AreEndsOf
        (linking L.Links L.Device.Duplex L.Clock.Clock (served_by N.start)) tree.now links.items ends.items) }
    ensures back { IfErr result (λ back. back ≡ links) }
{
    let Ok(flags) = clear_flags(alloc, links.len()) else {
        return Err(links);
    };
    let flags = flags.as_slice();
    let common = &Common {
        alloc,
        rt,
        shared,
        tree,
    };
    thread::scope(
        thread::scope_env(),
        rt,
        |scope| -> Result<Vec<WorkerEnd<N>>, Vec<(L, Seat<N>)>>
            requires { (length flags.now ≡ vec_len links) × (N.start.nodes ≡ common.now.tree.now.nodes)
                × AreUnused (seats_of links.items) }
            ensures ends { IfOk result (λ ends. AreEndsOf
                (linking L.Links L.Device.Duplex L.Clock.Clock (served_by N.start))
                common.entry.now.tree.now links.items ends.items) }
            ensures back { IfErr result (λ back. back ≡ links) }
        { serve_in(scope, common, retry, flags, links) },
    )
}

// Serves these links, each in a thread of this scope: begins a worker for each, in order, and then waits for them. The
// lists stand in here and not in the closure above, since a closure that is passed on may not hold a type with a
// promise of a type parameter.
fn serve_in<
    's,
    E,
    N: Naming + Send + Sync + 's,
    L: Links + Drop + Send + 's,
    R: Threads + Wait + Sync,
    Y: Retry,
>(
    scope: &Scope<'s, E>,
    common: &'s Common<'s, N, R>,
    retry: &Y,
    mut flags: &'s [AtomicBool],
    links: Vec<(L, Seat<N>)>,
) -> Result<Vec<WorkerEnd<N>>, Vec<(L, Seat<N>)>>
    requires flags { length flags.now ≡ vec_len links }
    requires tree { N.start.nodes ≡ common.now.tree.now.nodes }
    requires unused { AreUnused (seats_of links.items) }
    ensures ends { IfOk result (λ ends. AreEndsOf
        (linking L.Links L.Device.Duplex L.Clock.Clock (served_by N.start))
        common.now.tree.now links.items ends.items) }
    ensures back { IfErr result (λ back. back ≡ links) }
{
    let Ok(mut workers) = Vec::with_capacity(common.alloc, links.len()) else {
        return Err(links);
    };
    let Ok(mut ends) = Vec::with_capacity(common.alloc, links.len()) else {
        return Err(links);
    };
    for (link, seat) in links {
        let Some((refused, others)) = flags.split_first() else {
            unreachable!()
        };
        flags = others;
        workers.push_reserved(begin(scope, common, retry, refused, link, seat));
    }
    finish_all(common.rt, workers, &mut ends);
    Ok(ends)
}

// Flags that aren't set.
fn clear_flags(alloc: Global, count: usize) -> Result<Vec<AtomicBool>, AllocError>
    ensures { IfOk result (λ flags. vec_len flags ≡ count) }
{
    let mut flags = Vec::new(alloc);
    for _ in 0..count {
        flags.push(AtomicBool::new(false))?;
    }
    Ok(flags)
}

// Waits for the end of each worker, in order.
fn finish_all<N: Naming, L: Links, R: Threads>(
    rt: &R,
    workers: Vec<Worker<N, L>>,
    ends: &mut Vec<WorkerEnd<N>>,
)
    requires empty { ends.old.items ≡ [] }
    requires room { vec_len workers ≤ vec_capacity ends.old }
    ensures { (tree : Files) (links : List (L × SeatView))
        → AreWorkers (linking L.Links L.Device.Duplex L.Clock.Clock (served_by N.start))
        tree links workers.items
        → AreEndsOf (linking L.Links L.Device.Duplex L.Clock.Clock (served_by N.start))
        tree links ends.new.items }
{
    for worker in workers {
        ends.push_reserved(finish(rt, worker));
    }
}
