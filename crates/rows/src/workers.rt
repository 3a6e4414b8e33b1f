//! Starts a worker for each link of a run, with or without a sweeper beside them.

ghost use Rattle.std.specs.Prelude.{◌≡◌, IfOk};
ghost use Rattle.nfs_threads.specs.Worker.{AreUnused, seats_of};
ghost use Rattle.rows.specs.Places.{AreServed};

use crate::calls::Calls;
use crate::failure::Failure;
use crate::sweeping::{Sweeps, sweep_until};
use nfs_shared::{Naming, Seat, Shared, Sweeper};
use nfs_threads::{Links, NoRetry, WorkerEnd, receipts_by_connection, serve_all};
use nfs_tree::Tree;
use std::alloc::Global;
use std::sync::Wait;
use std::sync::atomic::{AtomicBool, Ordering};
use std::thread;
use std::thread::Threads;

/// The workers of a run: each link has a worker, in a thread of its own.
#[derive(Drop)]
pub(crate) struct Workers<'a, N: Naming, R> {
    pub(crate) rt: &'a R,
    pub(crate) alloc: Global,
    pub(crate) shared: &'a Shared<N>,
    pub(crate) tree: &'a Tree,
}

impl<'a, N: Naming + Send + Sync, R: Threads + Wait + Sync> Workers<'a, N, R> {
    /// Serves these links at once, each at its seat and in a thread of its own, and waits for their ends.
    pub(crate) fn serve<L: Links + Drop + Send>(
        &self,
        links: Vec<(L, Seat<N>)>,
    ) -> Result<Vec<WorkerEnd<N>>, Failure>
        requires nodes { N.start.nodes ≡ self.now.tree.now.nodes }
        requires unused { AreUnused (seats_of links.items) }
        ensures { IfOk result (λ ends. AreServed links.items ends.items) }
    {
        let (alloc, rt) = (self.alloc, self.rt);
        let Ok(ends) = serve_all(alloc, rt, &NoRetry, self.shared, self.tree, links) else {
            return Err(Failure::Memory);
        };
        receipts_by_connection::<N, L>();
        Ok(ends)
    }

    /// Serves these links as `serve` does, while another thread sweeps. Returns the sweeper, too.
    pub(crate) fn serve_swept<L: Links + Drop + Send>(
        &self,
        links: Vec<(L, Seat<N>)>,
        calls: &Calls,
        sweeper: Sweeper<N>,
    ) -> Result<(Vec<WorkerEnd<N>>, Sweeps, Sweeper<N>), Failure>
        requires nodes { N.start.nodes ≡ self.now.tree.now.nodes }
        requires unused { AreUnused (seats_of links.items) }
        ensures { IfOk result (λ r. AreServed links.items r.0.items) }
    {
        let is_over = &AtomicBool::new(false);
        let (rt, shared) = (self.rt, self.shared);
        // Where no thread can be made, the first is called after the second.
        let ((sweeps, sweeper), ends) = thread::join(
            rt,
            move || sweep_until(rt, shared, sweeper, calls, is_over),
            move || -> Result<Vec<WorkerEnd<N>>, Failure>
                requires { (N.start.nodes ≡ self.now.tree.now.nodes)
                    × AreUnused (seats_of links.items) }
                ensures { IfOk result (λ ends. AreServed links.items ends.items) }
            { self.serve_and_tell(links, is_over) },
        );
        Ok((ends?, sweeps, sweeper))
    }

    // Serves these links at once, and tells when they have ended.
    fn serve_and_tell<L: Links + Drop + Send>(
        &self,
        links: Vec<(L, Seat<N>)>,
        is_over: &AtomicBool,
    ) -> Result<Vec<WorkerEnd<N>>, Failure>
        requires nodes { N.start.nodes ≡ self.now.tree.now.nodes }
        requires unused { AreUnused (seats_of links.items) }
        ensures { IfOk result (λ ends. AreServed links.items ends.items) }
    {
        let ends = self.serve(links);
        is_over.store(true, Ordering::SeqCst);
        ends
    }
}
