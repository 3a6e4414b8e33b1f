//! A server whose state threads share.

ghost use Rattle.std.specs.Prelude.{◌≡◌, ◌++◌, ℕ, [], IfOk, IsFalse, length};
ghost use Rattle.std.specs.Vec.Iter.{into_iter_items};
ghost use Rattle.nfs_owners.specs.Registry.{is_live};
ghost use Rattle.nfs_threads.specs.Worker.{AreUnused, seats_of};
ghost use Rattle.nfs_shared.specs.Ends.{AreFresh};
ghost use Rattle.nfs_shared.specs.Naming.{CanBegin};
ghost use Rattle.rows.specs.Places.{AreServed};

use crate::answer::Answer;
use crate::batch::Batch;
use crate::calls::Calls;
use crate::connection::Connection;
use crate::failure::Failure;
use crate::memory_link::MemoryLink;
use crate::order::{Mark, Order};
use crate::outcome::{BatchOutcome, ConnectionOutcome};
use crate::rising::Rising;
use crate::seats_back::SeatsBack;
use crate::session::Session;
use crate::sweeping::Sweeps;
use crate::workers::Workers;
use crate::yielding::Yielding;
use nfs_core::{Core, CoreError, Moment, Recall};
use nfs_leases::Swept;
use nfs_owners::ClientState;
use nfs_server::ServeError;
use nfs_shared::{Naming, Opened, Receipt, Seat, Sender, Shared, SharedParts, Sweeper};
use nfs_threads::{Links, Shift, WorkerEnd};
use nfs_tree::Tree;
use std::alloc::{AllocError, Global};
use std::io::{Read, Write};
use std::marker::{Brand, Model};
use std::sync::Wait;
use std::thread::Threads;
use std::vec::IntoIter;

/// Has a server with this core and so many seats do what it is told, and gives the core back.
pub(crate) fn serve_together<R: Threads + Wait + Sync, I: Read + Drop, O: Write + Drop>(
    rt: &R,
    session: &mut Session<I, O>,
    tree: &Tree,
    core: Core,
    seats: u32,
) -> Result<Core, Failure>
    requires nodes { core.journal.nodes ≡ tree.now.nodes }
    requires empty { core.journal.entries ≡ [] }
    requires nobody { (number : ℕ) → IsFalse (is_live number core.stored.clients) }
{
    match Opened::new(session.alloc, core.journal().lease(), seats) {
        Ok(opened) => run::<Brand, R, I, O>(rt, session, opened, core, tree),
        Err(_) => {
            drop(core);
            Err(Failure::Memory)
        }
    }
}

// Serves the session as `serve_together` does, in a run that is named `N`.
fn run<N: Naming + Send + Sync, R: Threads + Wait + Sync, I: Read + Drop, O: Write + Drop>(
    rt: &R,
    session: &mut Session<I, O>,
    opened: Opened,
    core: Core,
    tree: &Tree,
) -> Result<Core, Failure>
    requires beginning { CanBegin N.run N.start opened core }
    requires nodes { core.journal.nodes ≡ tree.now.nodes }
{
    match Shared::<N>::new(session.alloc, opened, core) {
        Ok(parts) => run_parts(rt, session, parts, tree),
        Err(core) => {
            drop(core);
            Err(Failure::Memory)
        }
    }
}

// Serves the session over the shared state that these parts make.
fn run_parts<N: Naming + Send + Sync, R: Threads + Wait + Sync, I: Read + Drop, O: Write + Drop>(
    rt: &R,
    session: &mut Session<I, O>,
    parts: SharedParts<N>,
    tree: &Tree,
) -> Result<Core, Failure>
    requires nodes { N.start.nodes ≡ tree.now.nodes }
    requires fresh { AreFresh N.run.words N.run.workers parts.seats.items }
{
    let SharedParts {
        shared,
        seats,
        sweeper,
        sender,
    } = parts;
    let workers = Workers {
        rt,
        alloc: session.alloc,
        shared: &shared,
        tree,
    };
    let server = Together::new(workers, seats, sweeper, sender);
    match server.serve_to_end(session) {
        Ok((back, sweeper, sender)) => Ok(back.end(shared, sweeper, sender).0),
        Err(failure) => {
            drop(shared);
            Err(failure)
        }
    }
}

// A server that serves each connection in a thread and at a seat of its own.
#[derive(Drop)]
struct Together<'a, N: Naming, R> {
    workers: Workers<'a, N, R>,
    left: IntoIter<Seat<N>>,
    back: SeatsBack<N>,
    sweeper: Sweeper<N>,
    sender: Sender<N>,
}

// Contracts see how many seats came back.
impl<'a, N: Naming, R> Model for Together<'a, N, R> {
    ghost use Rattle.std.specs.Prelude.{◌≡◌, ◌+◌, ℕ, length};
    ghost use Rattle.std.specs.Vec.Iter.{into_iter_items};
    ghost use Rattle.rows.specs.Places.{AreFreshFrom};

    ghost Value = { ℕ };

    ghost view = { λ t. length t.back.seats };

    ghost invariant = { λ t.
        AreFreshFrom N.run.words (length t.back.seats) (into_iter_items t.left)
        × (length t.back.seats + length (into_iter_items t.left) ≡ N.run.workers)
        × (N.start.nodes ≡ t.workers.tree.now.nodes) };
}

impl<'a, N: Naming + Send + Sync, R: Threads + Wait + Sync> Together<'a, N, R> {
    fn new(
        workers: Workers<'a, N, R>,
        seats: Vec<Seat<N>>,
        sweeper: Sweeper<N>,
        sender: Sender<N>,
    ) -> Together<'a, N, R>
        requires nodes { N.start.nodes ≡ workers.tree.now.nodes }
        requires fresh { AreFresh N.run.words N.run.workers seats.items }
    {
        let back = SeatsBack::new(workers.alloc);
        Together {
            workers,
            left: seats.into_iter(),
            back,
            sweeper,
            sender,
        }
    }

    // Does what it is told until the input ends, and hands in the seats.
    fn serve_to_end<I: Read + Drop, O: Write + Drop>(
        self,
        session: &mut Session<I, O>,
    ) -> Result<(SeatsBack<N>, Sweeper<N>, Sender<N>), Failure>
        ensures { IfOk result (λ r. length r.0.seats ≡ N.run.workers) }
    {
        Ok(self.direct(session)?.close()?)
    }

    // Hands in the seats that are left.
    fn close(self) -> Result<(SeatsBack<N>, Sweeper<N>, Sender<N>), AllocError>
        ensures { IfOk result (λ r. length r.0.seats ≡ N.run.workers) }
    {
        let Together {
            workers: _,
            left,
            mut back,
            sweeper,
            sender,
        } = self;
        back.hand_in_unused(left)?;
        Ok((back, sweeper, sender))
    }

    // Does what it is told until the input ends. After a failure the server is gone.
    fn direct<I: Read + Drop, O: Write + Drop>(
        self,
        session: &mut Session<I, O>,
    ) -> Result<Together<'a, N, R>, Failure> {
        let mut server = self;
        for _ in 0..u64::MAX {
            match session.next_order() {
                Ok(Some(order)) => server = server.follow(order, session)?,
                Ok(None) => break,
                Err(failure) => {
                    drop(server);
                    return Err(failure);
                }
            }
        }
        Ok(server)
    }

    // Does this, tells what came of it, and gives the server back.
    fn follow<I: Read + Drop, O: Write + Drop>(
        self,
        order: Order,
        session: &mut Session<I, O>,
    ) -> Result<Together<'a, N, R>, Failure> {
        let mut answer = Answer::new(session.alloc);
        let (server, put) = match order {
            Order::Serve(batch) => self.serve(batch, &mut answer)?,
            order => self.look(order, &mut answer),
        };
        server.unless_failed(put.and_then(|()| session.tell(&answer)))
    }

    // The server, or the failure.
    fn unless_failed(self, put: Result<(), Failure>) -> Result<Together<'a, N, R>, Failure> {
        match put {
            Ok(()) => Ok(self),
            Err(failure) => {
                drop(self);
                Err(failure)
            }
        }
    }

    // Does this, unless it is to serve, and appends what came of it.
    fn look(self, order: Order, answer: &mut Answer) -> (Together<'a, N, R>, Result<(), Failure>) {
        let mut server = self;
        let put = server.put(order, answer);
        (server, put)
    }

    fn put(&mut self, order: Order, answer: &mut Answer) -> Result<(), Failure> {
        match order {
            Order::Sweep(now) => answer.put_swept(self.sweep(now))?,
            Order::Mark(mark) => answer.put_marked(self.mark(mark))?,
            Order::Take(xid) => answer.put_recall(xid, self.take())?,
            Order::Probe(after) => {
                let found = self.probe(after)?;
                answer.put_client(found.as_ref())?;
            }
            Order::Pending => answer.put_count(self.waiting())?,
            // No call of the shared state revokes or forgets alone: its sweeps do. And who serves has the server by
            // value.
            Order::Revoke(_) | Order::Forget(_) | Order::Serve(_) => return Err(Failure::Input),
        }
        Ok(())
    }

    fn serve(
        self,
        batch: Batch,
        answer: &mut Answer,
    ) -> Result<(Together<'a, N, R>, Result<(), Failure>), Failure> {
        let (outcome, server) = self.serve_batch(batch)?;
        let put = outcome.put(answer).map_err(Failure::from);
        Ok((server, put))
    }

    fn serve_batch(self, batch: Batch) -> Result<(BatchOutcome, Together<'a, N, R>), Failure> {
        let Batch {
            start,
            pace,
            piece,
            is_swept,
            mut connections,
        } = batch;
        let Together {
            workers,
            mut left,
            mut back,
            sweeper,
            sender,
        } = self;
        let calls = Calls::new(start, pace);
        let sent = connections.as_mut_slice();
        let links = links_of(workers.alloc, &calls, piece, sent, &mut left)?;
        let (ends, sweeps, sweeper) = serve_links(&workers, links, &calls, is_swept, sweeper)?;
        let outcomes = outcomes_of(workers.alloc, ends.as_slice(), connections)?;
        back.hand_in_all(ends)?;
        let server = Together {
            workers,
            left,
            back,
            sweeper,
            sender,
        };
        Ok((BatchOutcome { outcomes, sweeps }, server))
    }

    fn sweep(&mut self, now: Moment) -> Swept {
        self.workers
            .shared
            .sweep(self.workers.rt, &mut self.sweeper, now)
    }

    fn mark(&mut self, mark: Mark) -> Result<u32, CoreError> {
        let Mark { client, is_up } = mark;
        self.workers
            .shared
            .mark_path(self.workers.rt, &mut self.sender, client, is_up)
    }

    fn probe(&mut self, after: u32) -> Result<Option<ClientState>, AllocError> {
        self.workers
            .shared
            .probe(self.workers.rt, &mut self.sender, after)
    }

    // How many recalls wait.
    fn waiting(&self) -> usize {
        let hold = self.workers.shared.hold(self.workers.rt);
        let count = hold.guard.waiting();
        drop(hold);
        count
    }

    fn take(&mut self) -> Option<Recall> {
        self.workers.shared.take(self.workers.rt, &mut self.sender)
    }
}

// A connection over memory, whose clock is that of the order.
type BatchLink<'b, 'c> = MemoryLink<'b, Yielding<'b>, Rising<'c>>;

// A link for each connection, at the next seat that is left.
fn links_of<'b, 'c, N: Naming>(
    alloc: Global,
    calls: &'c Calls,
    piece: usize,
    connections: &'b mut [Connection],
    left: &mut IntoIter<Seat<N>>,
) -> Result<Vec<(BatchLink<'b, 'c>, Seat<N>)>, Failure>
    ensures { IfOk result (λ links.
        into_iter_items left.old ≡ seats_of links.items ++ into_iter_items left.new) }
{
    let mut links = Vec::with_capacity(alloc, connections.len())?;
    for connection in connections {
        let Some(seat) = left.next() else {
            return Err(Failure::Input);
        };
        let link = MemoryLink::new(connection.parts(calls, piece));
        links.push((link, seat))?;
    }
    Ok(links)
}

// Serves these links at once, while another thread sweeps if that is wanted.
fn serve_links<N: Naming + Send + Sync, L: Links + Drop + Send, R: Threads + Wait + Sync>(
    workers: &Workers<'_, N, R>,
    links: Vec<(L, Seat<N>)>,
    calls: &Calls,
    is_swept: bool,
    sweeper: Sweeper<N>,
) -> Result<(Vec<WorkerEnd<N>>, Sweeps, Sweeper<N>), Failure>
    requires nodes { N.start.nodes ≡ workers.now.tree.now.nodes }
    requires unused { AreUnused (seats_of links.items) }
    ensures { IfOk result (λ r. AreServed links.items r.0.items) }
{
    if is_swept {
        return workers.serve_swept(links, calls, sweeper);
    }
    let ends = workers.serve(links)?;
    Ok((ends, Sweeps::NONE, sweeper))
}

// What came of each connection.
fn outcomes_of<N: Naming>(
    alloc: Global,
    ends: &[WorkerEnd<N>],
    connections: Vec<Connection>,
) -> Result<Vec<ConnectionOutcome>, AllocError> {
    let mut outcomes = Vec::with_capacity(alloc, ends.len())?;
    for (end, connection) in ends.iter().zip(connections) {
        outcomes.push(ConnectionOutcome {
            result: result_of(&end.shift),
            replies: connection.into_replies(),
            receipts: numbers_of(alloc, end.receipts.as_slice())?,
        })?;
    }
    Ok(outcomes)
}

// How its one connection ended, which wasn't begun where memory or a thread was refused.
fn result_of(shift: &Shift) -> Result<usize, ServeError> {
    match shift.connections.first() {
        Some(connection) => connection.result,
        None => Err(ServeError::Memory),
    }
}

fn numbers_of(alloc: Global, receipts: &[Receipt]) -> Result<Vec<u32>, AllocError> {
    let mut numbers = Vec::with_capacity(alloc, receipts.len())?;
    for receipt in receipts {
        numbers.push(receipt.number)?;
    }
    Ok(numbers)
}
