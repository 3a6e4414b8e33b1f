//! The orders of a run between the thread that reads them and the thread that does them.

use crate::order_clock::OrderClock;
use nfs_orders::{Order, OrderError, OrderQueue};
use std::alloc::{AllocError, Global};
use std::sync::{Condvar, Mutex, Wait};
use std::time::{Clock as Timer, Duration};

/// The orders of a run, which one thread puts in and another one does, and the clock that goes by them.
#[derive(Drop)]
pub struct Orders {
    clock: OrderClock,
    waiting: Mutex<WaitingOrders>,
    changed: Condvar,
}

// The orders that wait.
#[derive(Drop)]
struct WaitingOrders {
    queue: OrderQueue,
    // Whether no more come, whether those that wait aren't done any more, and whether an order said so.
    has_ended: bool,
    is_closed: bool,
    is_end_ordered: bool,
}

/// What is to be done next.
pub(crate) enum Next {
    /// What came of this line.
    Line(Result<Order, OrderError>),
    /// Nothing yet.
    Nothing,
    /// Nothing any more.
    End,
}

impl Orders {
    /// None yet.
    pub fn new(alloc: Global) -> Result<Orders, AllocError> {
        Ok(Orders {
            clock: OrderClock::new(),
            waiting: Mutex::new(WaitingOrders {
                queue: OrderQueue::new(alloc)?,
                has_ended: false,
                is_closed: false,
                is_end_ordered: false,
            }),
            changed: Condvar::new(),
        })
    }

    pub(crate) fn clock(&self) -> &OrderClock {
        &self.clock
    }

    /// Puts in what came of the next line.
    pub(crate) fn put<R: Wait>(&self, rt: &R, line: Result<Order, OrderError>) {
        self.waiting.lock(rt).queue.put(line);
        self.changed.notify_all();
    }

    /// Tells that no more come. Those that wait are still done.
    pub(crate) fn end<R: Wait>(&self, rt: &R) {
        self.waiting.lock(rt).has_ended = true;
        self.changed.notify_all();
    }

    /// Tells that no more are done.
    pub(crate) fn close<R: Wait>(&self, rt: &R) {
        let mut waiting = self.waiting.lock(rt);
        waiting.has_ended = true;
        waiting.is_closed = true;
        drop(waiting);
        self.changed.notify_all();
    }

    /// Notes that an order ends the run.
    pub(crate) fn note_end<R: Wait>(&self, rt: &R) {
        self.waiting.lock(rt).is_end_ordered = true;
    }

    /// Whether an order ends the run.
    pub(crate) fn is_end_ordered<R: Wait>(&self, rt: &R) -> bool {
        self.waiting.lock(rt).is_end_ordered
    }

    /// What is to be done next, for which this waits, but not longer than this.
    pub(crate) fn next<R: Wait + Timer>(&self, rt: &R, most: Duration) -> Next {
        let (mut waiting, _) = self.changed.wait_timeout_while(
            rt,
            self.waiting.lock(rt),
            most,
            |waiting| waiting.is_idle(),
        );
        waiting.next()
    }

    /// Waits until no more come, but not longer than this, and returns whether no more come.
    pub(crate) fn wait_for_end<R: Wait + Timer>(&self, rt: &R, most: Duration) -> bool {
        let (waiting, _) = self.changed.wait_timeout_while(
            rt,
            self.waiting.lock(rt),
            most,
            |waiting| !waiting.has_ended,
        );
        waiting.has_ended
    }
}

impl WaitingOrders {
    // Whether nothing waits, and more may come.
    fn is_idle(&self) -> bool {
        self.queue.is_empty() && !self.has_ended
    }

    fn next(&mut self) -> Next {
        if self.is_closed {
            return Next::End;
        }
        match self.queue.take() {
            Some(line) => Next::Line(line),
            None if self.has_ended => Next::End,
            None => Next::Nothing,
        }
    }
}
