//! A server with a core of its own.

ghost use Rattle.std.specs.Prelude.{◌≡◌, ℕ, IsFalse};
ghost use Rattle.nfs_owners.specs.Registry.{is_live};

use crate::answer::Answer;
use crate::batch::Batch;
use crate::calls::Calls;
use crate::connection::Connection;
use crate::failure::Failure;
use crate::order::{Mark, Order};
use crate::outcome::{BatchOutcome, ConnectionOutcome};
use crate::session::Session;
use crate::sweeping::Sweeps;
use nfs_core::{Core, CoreError, Event, Moment};
use nfs_server::{Lent, serve_duplex};
use nfs_state::{Path, Revoke};
use nfs_tree::Tree;
use std::alloc::Global;
use std::io::{Read, Write};

/// Has a server with this core do what it is told, and gives the core back.
pub(crate) fn serve_alone<I: Read + Drop, O: Write + Drop>(
    session: &mut Session<I, O>,
    tree: &Tree,
    core: Core,
) -> Result<Core, Failure>
    requires nodes { core.journal.nodes ≡ tree.now.nodes }
    requires nobody { (number : ℕ) → IsFalse (is_live number core.stored.clients) }
{
    let alloc = session.alloc;
    let lent = Lent::new(alloc, core)?;
    let mut server = Alone { alloc, tree, lent };
    match server.direct(session) {
        Ok(()) => Ok(server.into_core()),
        Err(failure) => {
            drop(server);
            Err(failure)
        }
    }
}

// A server that serves one connection after the other, each to its end.
#[derive(Drop)]
struct Alone<'a> {
    alloc: Global,
    tree: &'a Tree,
    lent: Lent,
    ghost nodes: { lent.core.journal.nodes ≡ tree.now.nodes },
}

impl Alone<'_> {
    // Does what it is told until the input ends.
    fn direct<I: Read + Drop, O: Write + Drop>(
        &mut self,
        session: &mut Session<I, O>,
    ) -> Result<(), Failure> {
        for _ in 0..u64::MAX {
            let Some(order) = session.next_order()? else {
                break;
            };
            let mut answer = Answer::new(self.alloc);
            self.follow(order, &mut answer)?;
            session.tell(&answer)?;
        }
        Ok(())
    }

    // Does this, and appends what came of it.
    fn follow(&mut self, order: Order, answer: &mut Answer) -> Result<(), Failure> {
        match order {
            Order::Serve(batch) => self.serve(batch)?.put(answer)?,
            Order::Sweep(now) => answer.put_swept(self.lent.sweep(now))?,
            Order::Mark(mark) => answer.put_marked(self.mark(mark))?,
            Order::Revoke(now) => answer.put_removed(self.revoke(now))?,
            Order::Forget(now) => answer.put_removed(self.forget(now))?,
            Order::Take(xid) => answer.put_recall(xid, self.lent.take_recall())?,
            Order::Pending => answer.put_count(self.lent.core().pending().len())?,
            Order::Probe(after) => answer.put_client(self.lent.core().probe(after))?,
        }
        Ok(())
    }

    // The number of the entry.
    fn mark(&mut self, mark: Mark) -> Result<u32, CoreError> {
        self.lent.enter(Event::Path(Path {
            client: mark.client,
            up: mark.is_up,
        }))
    }

    // The number of the entry, if a delegation was due.
    fn revoke(&mut self, now: Moment) -> Result<Option<u32>, CoreError> {
        match self.lent.core().due(now) {
            None => Ok(None),
            Some(number) => match self.lent.enter(Event::Revoke(Revoke { number, now })) {
                Ok(entry) => Ok(Some(entry)),
                Err(error) => Err(error),
            },
        }
    }

    // The number of the entry, if an owner was due.
    fn forget(&mut self, now: Moment) -> Result<Option<u32>, CoreError> {
        match self.lent.forget(now) {
            Ok(None) => Ok(None),
            Ok(Some(entry)) => Ok(Some(entry)),
            Err(error) => Err(error),
        }
    }

    fn serve(&mut self, batch: Batch) -> Result<BatchOutcome, Failure> {
        // There is no other thread that could sweep.
        if batch.is_swept {
            return Err(Failure::Input);
        }
        let calls = Calls::new(batch.start, batch.pace);
        let mut outcomes = Vec::new(self.alloc);
        for connection in batch.connections {
            outcomes.push(self.converse(&calls, batch.piece, connection))?;
        }
        Ok(BatchOutcome {
            outcomes,
            sweeps: Sweeps::NONE,
        })
    }

    fn converse(
        &mut self,
        calls: &Calls,
        piece: usize,
        mut connection: Connection,
    ) -> ConnectionOutcome {
        let (mut device, mut clock) = connection.parts(calls, piece).open();
        let result = serve_duplex(
            self.alloc,
            &mut device,
            &mut self.lent,
            self.tree,
            &mut clock,
        );
        ConnectionOutcome {
            result,
            replies: connection.into_replies(),
            receipts: Vec::new(self.alloc),
        }
    }

    fn into_core(self) -> Core {
        let Alone {
            alloc: _,
            tree: _,
            lent,
        } = self;
        lent.into_core()
    }
}
