//! Starts and joins a worker's thread, and does without if the system makes none.

ghost use Rattle.std.specs.Prelude.{◌≡◌};
ghost use Rattle.nfs_threads.specs.WorkerThread.{IsWorker};
ghost use Rattle.nfs_threads.specs.Worker.{IsEndOf, linking};
ghost use Rattle.nfs_shared.specs.Seats.{SeatView};
ghost use Rattle.nfs_tree.specs.Tree.{Files};
ghost use Rattle.nfs_server.specs.Serves.{served_by};

use crate::retry::{Again, spawn_again};
use crate::worker::{Common, ServicePromise, work};
use crate::{Links, Retry, WorkerEnd};
use nfs_shared::{Naming, Seat};
use std::snapshot::Snapshot;
use std::sync::Wait;
use std::sync::atomic::{AtomicBool, Ordering};
use std::thread::{PromisedHandle, Scope, Threads};

/// The thread of a worker; or, where no thread could be made for it, what the worker gave back at once.
#[derive(Drop)]
pub(crate) enum Worker<N: Naming, L: Links> {
    Begun(PromisedHandle<WorkerEnd<N>, Again<ServicePromise<N, L>>>),
    Refused(WorkerEnd<N>),
}

/// Begins the worker of these links and a seat, and tries that as often as the run does.
pub(crate) fn begin<
    's,
    E,
    N: Naming + Send + Sync + 's,
    L: Links + Drop + Send + 's,
    R: Wait + Sync,
    Y: Retry,
>(
    scope: &Scope<'s, E>,
    common: &'s Common<'s, N, R>,
    retry: &Y,
    refused: &'s AtomicBool,
    links: L,
    seat: Seat<N>,
) -> Worker<N, L>
    requires tree { N.start.nodes ≡ common.now.tree.now.nodes }
    requires unused { seat.receipts.given ≡ 0 }
    ensures { IsWorker (linking L.Links L.Device.Duplex L.Clock.Clock (served_by N.start))
        common.now.tree.now links seat result }
{
    let promise = ServicePromise {
        tree: Snapshot::of(common.tree),
        links: Snapshot::of(&links),
        seat: Snapshot::of(&seat),
    };
    let begun = spawn_again(
        scope,
        common.rt,
        retry,
        &promise,
        move || -> WorkerEnd<N>
            requires { (N.start.nodes ≡ common.now.tree.now.nodes) × (seat.receipts.given ≡ 0) }
            ensures { IsEndOf (linking L.Links L.Device.Duplex L.Clock.Clock (served_by N.start))
                common.entry.now.tree.now links seat result }
        { work(common, refused, links, seat) },
    );
    match begun {
        Ok(handle) => Worker::Begun(handle),
        Err(back) => {
            refused.store(true, Ordering::SeqCst);
            Worker::Refused((back.value)())
        }
    }
}

/// Waits for the end of a worker.
pub(crate) fn finish<N: Naming, L: Links, R: Threads>(rt: &R, worker: Worker<N, L>) -> WorkerEnd<N>
    ensures { (tree : Files) (links : L) (seat : SeatView)
        → IsWorker (linking L.Links L.Device.Duplex L.Clock.Clock (served_by N.start)) tree links seat worker
        → IsEndOf (linking L.Links L.Device.Duplex L.Clock.Clock (served_by N.start)) tree links seat result }
{
    match worker {
        Worker::Begun(handle) => handle.join(rt),
        Worker::Refused(end) => end,
    }
}
