//! A run over a TCP listener, from a core to its end, with the threads that sweep and send callbacks.

ghost use Rattle.std.specs.Prelude.{◌≡◌, ◌≤◌, [], ℕ, IfErr, IfOk, IsFalse, length, vec_capacity, vec_len};
ghost use Rattle.std.specs.List.{AllByRecursion};
ghost use Rattle.nfs_server.specs.Serves.{served_by};
ghost use Rattle.nfs_threads.specs.Calling.{HasCalled, unused};
ghost use Rattle.nfs_threads.specs.Links.{tcp};
ghost use Rattle.nfs_threads.specs.Run.{IsRun};
ghost use Rattle.nfs_threads.specs.declared.tcp_links.Entrance.TheVariants as entrances;
ghost use Rattle.nfs_threads.specs.declared.tcp_links.TcpLinks.{TcpLinks};
ghost use Rattle.nfs_threads.specs.declared.watcher.Nobody.{Nobody};
ghost use Rattle.nfs_owners.specs.Registry.{is_live};
ghost use Rattle.nfs_threads.specs.Worker.{AreEndsOf, AreUnused, seats_of};
ghost use Rattle.nfs_shared.specs.Naming.{CanBegin};

use crate::bell::Bell;
use crate::calling::{CallingPromise, call_back_until};
use crate::lists::Lists;
use crate::orders::Orders;
use crate::sweeping::sweep_until;
use crate::tcp_links::Entrance;
use crate::time_source::TimeSource;
use crate::watcher::Nobody;
use crate::{Door, Retry, RunEnd, TcpLinks, Watcher, WorkerEnd, serve_all, workers_keep_receipts};
use nfs_core::Core;
use nfs_shared::{Naming, Opened, Seat, Sender, Shared, SharedParts, Sweeper};
use nfs_tree::Tree;
use std::alloc::Global;
use std::marker::Brand;
use std::net::{Net, TcpListener, TcpStream};
use std::sync::Wait;
use std::thread;
use std::thread::{Scope, Threads};
use std::time::{Clock as Timer, Duration};

// How many seconds it is from a thread that was refused to the next try.
const RETRY_SECONDS: u64 = 1;

/// Serves the next connections that come to the listener, as many as `connections` says, each in a thread of its own,
/// and ends when all of them have ended. Meanwhile one more thread removes clients whose leases are over, and another
/// one calls clients back. It returns the core as the connections left it, how each of them ended, and whether these
/// two threads could be made: if not, the connections are served all the same. If memory is refused for the state, the
/// core comes back; if it is for the workers, each of them ends for want of memory, and no connection is accepted.
pub fn serve_on<R: Threads + Wait + Timer + Net<Listener = TcpListener, Stream = TcpStream> + Sync>(
    alloc: Global,
    rt: &R,
    listener: &TcpListener,
    core: Core,
    tree: &Tree,
    connections: u32,
) -> Result<RunEnd, Core>
    requires empty { core.journal.entries ≡ [] }
    requires nobody { (number : ℕ) → IsFalse (is_live number core.stored.clients) }
    requires nodes { core.journal.nodes ≡ tree.now.nodes }
    ensures served { IfOk result (λ r. (links : TcpLinks R Nobody)
        × (links.entrance ≡ entrances.Listener listener.entry)
        × IsRun links tree.now connections core r) }
    ensures back { IfErr result (λ back. back ≡ core) }
{
    let Ok(opened) = Opened::new(alloc, core.journal().lease(), connections) else {
        return Err(core);
    };
    let source = since_now(rt);
    let (bell, watcher) = (Bell::new(), Nobody);
    let setting = Setting {
        alloc,
        rt,
        tree,
        source,
        bell: &bell,
        door: None,
        watcher: &watcher,
    };
    let links = TcpLinks::new(rt, source, &bell, &watcher, Entrance::Listener(listener));
    run::<Brand, R, Nobody>(&setting, &links, connections, opened, core)
}

/// Serves the connections that come through the door, one after the other at each worker, and ends when the door is
/// closed and all of them have ended. Else it is as `serve_on`; the watcher is told of the run, and sees the core.
pub fn serve_through<
    R: Threads + Wait + Timer + Net<Listener = TcpListener, Stream = TcpStream> + Sync,
    W: Watcher + Sync,
>(alloc: Global, rt: &R, door: &Door, watcher: &W, core: Core, tree: &Tree) -> Result<RunEnd, Core>
    requires empty { core.journal.entries ≡ [] }
    requires nobody { (number : ℕ) → IsFalse (is_live number core.stored.clients) }
    requires nodes { core.journal.nodes ≡ tree.now.nodes }
    ensures served { IfOk result (λ r. (links : TcpLinks R W)
        × (links.entrance ≡ entrances.Door door.entry)
        × IsRun links tree.now door.now.workers core r) }
    ensures back { IfErr result (λ back. back ≡ core) }
{
    let workers = door.workers();
    let Ok(opened) = Opened::new(alloc, core.journal().lease(), workers) else {
        return Err(core);
    };
    let source = source_at(rt, door);
    let setting = Setting {
        alloc,
        rt,
        tree,
        source,
        bell: door.bell(),
        door: Some(door),
        watcher,
    };
    let links = TcpLinks::new(rt, source, door.bell(), watcher, Entrance::Door(door));
    run::<Brand, R, W>(&setting, &links, workers, opened, core)
}

// The monotonic clock from now on. Where it can't be read now and can be later, moments count from its own beginning.
fn since_now<'a, R: Timer>(rt: &R) -> TimeSource<'a> {
    TimeSource::Since(rt.monotonic().unwrap_or(Duration::ZERO))
}

// What tells the moments of the connections that come through this door.
fn source_at<'a, R: Timer>(rt: &R, door: &'a Door) -> TimeSource<'a> {
    match door.orders() {
        Some(orders) => TimeSource::Orders(orders.clock()),
        None => since_now(rt),
    }
}

/// What all connections have in common, the bell that tells their end, the door through which they come, if there is
/// one, and who watches.
#[derive(Drop)]
pub(crate) struct Setting<'a, R, W> {
    pub(crate) alloc: Global,
    pub(crate) rt: &'a R,
    pub(crate) tree: &'a Tree,
    pub(crate) source: TimeSource<'a>,
    pub(crate) bell: &'a Bell,
    pub(crate) door: Option<&'a Door>,
    pub(crate) watcher: &'a W,
}

impl<'a, R: Wait, W> Setting<'a, R, W> {
    /// The door and the orders of the run, if it goes by orders.
    pub(crate) fn ordered(&self) -> Option<(&'a Door, &'a Orders)> {
        let door = self.door?;
        Some((door, door.orders()?))
    }

    // Tells the end of the connections if the run goes by orders, and there is no thread that does them.
    fn end_unless_swept(&self, is_swept: bool) {
        if !is_swept && self.ordered().is_some() {
            self.end();
        }
    }

    // Tells the end of the connections.
    fn end(&self) {
        match self.door {
            Some(door) => door.close(self.rt),
            None => self.bell.ring(self.rt),
        }
    }
}

impl<'a, R: Wait + Timer, W: Watcher> Retry for Setting<'a, R, W> {
    fn note_begun(&self) {
        if let Some(door) = self.door {
            if door.note_begun(self.rt) {
                self.watcher.tell_all_begun(door.workers());
            }
        }
    }

    // A run that goes on tries it once a second until its end.
    fn wait_for_thread(&self) -> bool {
        let Some(door) = self.door else {
            return false;
        };
        if let Some(begun) = door.first_refused_thread(self.rt) {
            self.watcher.tell_thread_refused(begun, door.workers());
        }
        !self.bell.wait(self.rt, Duration::from_secs(RETRY_SECONDS))
    }
}

// What the threads beside the workers need of the shared state.
#[derive(Drop)]
struct Helpers<N: Naming> {
    sweeper: Sweeper<N>,
    sender: Sender<N>,
}

// Serves in a run of this name. No type of the signature may rest on the name.
fn run<
    N: Naming + Send + Sync,
    R: Threads + Wait + Timer + Net<Listener = TcpListener, Stream = TcpStream> + Sync,
    W: Watcher + Sync,
>(
    setting: &Setting<'_, R, W>,
    links: &TcpLinks<'_, R, W>,
    connections: u32,
    opened: Opened,
    core: Core,
) -> Result<RunEnd, Core>
    requires beginning { CanBegin N.run N.start opened core }
    requires count { opened.workers ≡ connections }
    requires nodes { core.journal.nodes ≡ setting.now.tree.now.nodes }
    ensures served { IfOk result (IsRun links.now setting.now.tree.now connections core) }
    ensures back { IfErr result (λ back. back ≡ core) }
{
    let Ok(lists) = Lists::<N, R, W>::new(setting.alloc, connections as usize) else {
        return Err(core);
    };
    let parts = match Shared::<N>::new(setting.alloc, opened, core) {
        Ok(parts) => parts,
        Err(core) => return Err(core),
    };
    let SharedParts {
        shared,
        seats,
        sweeper,
        sender,
    } = parts;
    let Lists {
        links: mut all,
        spare,
        mut shifts,
        seats: mut seats_back,
        mut receipts,
    } = lists;
    link_all(links, seats, &mut all);
    let helpers = Helpers { sweeper, sender };
    let (ends, helpers, has_helpers) = serve_helped(setting, &shared, helpers, all, spare);
    workers_keep_receipts::<N, TcpLinks<'_, R, W>>();
    WorkerEnd::split(ends, &mut shifts, &mut seats_back, &mut receipts);
    let Helpers { sweeper, sender } = helpers;
    let core = shared.end(receipts.as_slice(), seats_back, sweeper, sender);
    Ok(RunEnd {
        core,
        shifts,
        receipts,
        has_helpers,
    })
}

// The links, for each of the seats.
fn link_all<'a, N: Naming, R, W>(
    links: &TcpLinks<'a, R, W>,
    seats: Vec<Seat<N>>,
    all: &mut Vec<(TcpLinks<'a, R, W>, Seat<N>)>,
)
    requires empty { all.old.items ≡ [] }
    requires room { vec_len seats ≤ vec_capacity all.old }
    ensures same { AllByRecursion (λ l. l.0 ≡ links.now) all.new.items }
    ensures seats { seats_of all.new.items ≡ seats.items }
{
    for seat in seats {
        all.push_reserved((links.again(), seat));
    }
}

// Serves the links, while one more thread sweeps and another one calls clients back; tells these two the end, and says
// whether both were made. What the workers give back is put into `spare` if they can't begin.
fn serve_helped<
    N: Naming + Send + Sync,
    R: Threads + Wait + Timer + Net<Listener = TcpListener, Stream = TcpStream> + Sync,
    W: Watcher + Sync,
>(
    setting: &Setting<'_, R, W>,
    shared: &Shared<N>,
    helpers: Helpers<N>,
    links: Vec<(TcpLinks<'_, R, W>, Seat<N>)>,
    spare: Vec<WorkerEnd<N>>,
) -> (Vec<WorkerEnd<N>>, Helpers<N>, bool)
    requires nodes { N.start.nodes ≡ setting.now.tree.now.nodes }
    requires unused { AreUnused (seats_of links.items) }
    requires empty { spare.items ≡ [] }
    requires room { length links.items ≤ vec_capacity spare }
    requires untaken { helpers.sender ≡ unused }
    ensures ends { AreEndsOf (tcp (served_by N.start)) setting.now.tree.now links.entry.items
        result.0.items }
    ensures called { HasCalled N.start result.1.sender }
{
    thread::scope(
        thread::scope_env(),
        setting.rt,
        |scope| -> (Vec<WorkerEnd<N>>, Helpers<N>, bool)
            requires { (N.start.nodes ≡ setting.now.tree.now.nodes) × AreUnused (seats_of links.items)
                × (spare.items ≡ []) × (length links.items ≤ vec_capacity spare)
                × (helpers.sender ≡ unused) }
            ensures ends { AreEndsOf (tcp (served_by N.start)) setting.entry.now.tree.now
                links.entry.items result.0.items }
            ensures called { HasCalled N.start result.1.sender }
        { serve_beside(scope, setting, shared, helpers, links, spare) },
    )
}

// Serves as `serve_helped` does, in a scope of threads. If no thread can be made for a task, the task runs when the end
// is told, and comes back with nothing done. The promise is in here and not in the closure above, since a closure that
// is passed on may not hold a type with a promise of a type parameter.
fn serve_beside<
    's,
    E,
    N: Naming + Send + Sync + 's,
    R: Threads + Wait + Timer + Net<Listener = TcpListener, Stream = TcpStream> + Sync + 's,
    W: Watcher + Sync + 's,
>(
    scope: &Scope<'s, E>,
    setting: &'s Setting<'s, R, W>,
    shared: &'s Shared<N>,
    helpers: Helpers<N>,
    links: Vec<(TcpLinks<'_, R, W>, Seat<N>)>,
    spare: Vec<WorkerEnd<N>>,
) -> (Vec<WorkerEnd<N>>, Helpers<N>, bool)
    requires nodes { N.start.nodes ≡ setting.now.tree.now.nodes }
    requires unused { AreUnused (seats_of links.items) }
    requires empty { spare.items ≡ [] }
    requires room { length links.items ≤ vec_capacity spare }
    requires untaken { helpers.sender ≡ unused }
    ensures ends { AreEndsOf (tcp (served_by N.start)) setting.now.tree.now links.entry.items
        result.0.items }
    ensures called { HasCalled N.start result.1.sender }
{
    let Helpers { sweeper, sender } = helpers;
    let sweeping = scope.spawn(move || sweep_until(setting, shared, sweeper));
    let calling = scope.spawn_with(
        CallingPromise::<N>::new(),
        move || -> Sender<N>
            requires { sender ≡ unused }
            ensures { HasCalled N.start result }
        { call_back_until(setting, shared, sender) },
    );
    setting.end_unless_swept(sweeping.is_ok());
    let (alloc, tree) = (setting.alloc, setting.tree);
    let all = match serve_all(alloc, setting.rt, setting, shared, tree, links) {
        Ok(all) => all,
        Err(links) => refuse_all(alloc, tree, links, spare),
    };
    setting.end();
    let has_helpers = sweeping.is_ok() && calling.is_ok();
    let sweeper = match sweeping {
        Ok(handle) => handle.join(setting.rt),
        Err(back) => (back.value)(),
    };
    let sender = match calling {
        Ok(handle) => handle.join(setting.rt),
        Err(back) => (back.value)(),
    };
    (all, Helpers { sweeper, sender }, has_helpers)
}

// The links get no worker, as memory is refused: none is served, and the seats come back.
fn refuse_all<N: Naming, R, W>(
    alloc: Global,
    tree: &Tree,
    links: Vec<(TcpLinks<'_, R, W>, Seat<N>)>,
    spare: Vec<WorkerEnd<N>>,
) -> Vec<WorkerEnd<N>>
    requires unused { AreUnused (seats_of links.items) }
    requires empty { spare.items ≡ [] }
    requires room { vec_len links ≤ vec_capacity spare }
    ensures { AreEndsOf (tcp (served_by N.start)) tree.now links.entry.items result.items }
{
    let mut all = spare;
    for (_, seat) in links {
        all.push_reserved(WorkerEnd::without_connections(alloc, seat));
    }
    all
}
