//! Hands the connections that the acceptor takes to the workers that wait for them.

ghost use Rattle.std.specs.Prelude.{◌≡◌};

use crate::bell::Bell;
use crate::{Orders, Peer, Watcher};
use std::mem;
use std::net::TcpStream;
use std::sync::{Condvar, Mutex, Wait};

/// Where the connections of a run come in, and its orders, if it goes by orders. A thread of its own accepts the next
/// one when a worker asks for it, so there are never more than workers, and workers that wait cost nothing.
#[derive(Drop)]
pub struct Door {
    workers: u32,
    lobby: Mutex<Lobby>,
    asked: Condvar,
    come: Condvar,
    bell: Bell,
    orders: Option<Orders>,
}

// What stands behind the door.
#[derive(Drop)]
struct Lobby {
    // How many workers wait for a connection, and how many have one.
    waiting: u32,
    busy: u32,
    arrival: Option<Arrival>,
    is_closed: bool,
    // How many workers have begun.
    begun: u32,
    // Whether it was told that all workers are busy, that the system gave an error, and that it made no thread.
    is_full_told: bool,
    is_refusal_told: bool,
    is_thread_told: bool,
}

// What came of an accept.
#[derive(Drop)]
pub(crate) enum Arrival {
    Connection(TcpStream, Peer),
    Refusal,
}

impl Door {
    /// A door for so many workers, in a run that goes by these orders, if there are any.
    pub fn new(workers: u32, orders: Option<Orders>) -> Door
        ensures { result.workers ≡ workers }
    {
        Door {
            workers,
            lobby: Mutex::new(Lobby {
                waiting: 0,
                busy: 0,
                arrival: None,
                is_closed: false,
                begun: 0,
                is_full_told: false,
                is_refusal_told: false,
                is_thread_told: false,
            }),
            asked: Condvar::new(),
            come: Condvar::new(),
            bell: Bell::new(),
            orders,
        }
    }

    /// For how many workers it is.
    pub fn workers(&self) -> u32
        ensures { result ≡ self.now.workers }
    {
        self.workers
    }

    /// Ends the run: no further connection is taken, no further order is done, and the connections that are open see
    /// that their input is over.
    pub fn close<R: Wait>(&self, rt: &R) {
        self.bell.ring(rt);
        if let Some(orders) = &self.orders {
            orders.close(rt);
        }
        self.lobby.lock(rt).is_closed = true;
        self.asked.notify_all();
        self.come.notify_all();
    }

    /// Whether an order ended the run.
    pub fn is_end_ordered<R: Wait>(&self, rt: &R) -> bool {
        match &self.orders {
            Some(orders) => orders.is_end_ordered(rt),
            None => false,
        }
    }

    pub(crate) fn bell(&self) -> &Bell {
        &self.bell
    }

    pub(crate) fn orders(&self) -> Option<&Orders> {
        self.orders.as_ref()
    }

    /// The next connection, for a worker that waits for it, or none if the door is closed. `returns` says whether the
    /// worker had one before.
    pub(crate) fn next<R: Wait, W: Watcher>(
        &self,
        rt: &R,
        watcher: &W,
        returns: bool,
    ) -> Option<(TcpStream, Peer)> {
        if returns {
            self.leave(rt);
        }
        for _ in rt.forever() {
            match self.take(rt)? {
                Arrival::Connection(stream, peer) => {
                    if self.becomes_full(rt) {
                        watcher.tell_full(self.workers);
                    }
                    return Some((stream, peer));
                }
                Arrival::Refusal => {
                    if self.becomes_refused(rt) {
                        watcher.tell_refusal();
                    }
                }
            }
        }
        unreachable!()
    }

    // A worker's connection has ended.
    fn leave<R: Wait>(&self, rt: &R) {
        let mut lobby = self.lobby.lock(rt);
        lobby.busy = lobby.busy.saturating_sub(1);
    }

    // Asks for an arrival, and waits for it. None if the door is closed.
    fn take<R: Wait>(&self, rt: &R) -> Option<Arrival> {
        let mut lobby = self.lobby.lock(rt);
        lobby.waiting = lobby.waiting.saturating_add(1);
        self.asked.notify_one();
        let mut lobby = self.come.wait_while(
            rt,
            lobby,
            |lobby| !lobby.is_closed && lobby.arrival.is_none(),
        );
        lobby.waiting = lobby.waiting.saturating_sub(1);
        let arrival = mem::take(&mut lobby.arrival);
        // There is room for the next one.
        self.asked.notify_one();
        if lobby.is_closed { None } else { arrival }
    }

    // One more worker has a connection; whether these are all of them for the first time.
    fn becomes_full<R: Wait>(&self, rt: &R) -> bool {
        let mut lobby = self.lobby.lock(rt);
        lobby.busy = lobby.busy.saturating_add(1);
        let is_first = lobby.busy >= self.workers && !lobby.is_full_told;
        if is_first {
            lobby.is_full_told = true;
        }
        is_first
    }

    // Whether this is the first error of the system.
    fn becomes_refused<R: Wait>(&self, rt: &R) -> bool {
        let mut lobby = self.lobby.lock(rt);
        !mem::replace(&mut lobby.is_refusal_told, true)
    }

    /// One more worker has begun. Returns whether these are all, after it was told that a thread was refused.
    pub(crate) fn note_begun<R: Wait>(&self, rt: &R) -> bool {
        let mut lobby = self.lobby.lock(rt);
        lobby.begun = lobby.begun.saturating_add(1);
        lobby.begun == self.workers && lobby.is_thread_told
    }

    /// The system made no thread for a worker. At the first time, how many workers have begun.
    pub(crate) fn first_refused_thread<R: Wait>(&self, rt: &R) -> Option<u32> {
        let mut lobby = self.lobby.lock(rt);
        if mem::replace(&mut lobby.is_thread_told, true) {
            None
        } else {
            Some(lobby.begun)
        }
    }

    /// Waits until a worker asks for a connection, and returns whether the door is still open.
    pub(crate) fn is_asked<R: Wait>(&self, rt: &R) -> bool {
        let lobby = self.asked.wait_while(rt, self.lobby.lock(rt), |lobby| {
            !lobby.is_closed && (lobby.waiting == 0 || lobby.arrival.is_some())
        });
        !lobby.is_closed
    }

    /// Gives what came to a worker that waits.
    pub(crate) fn give<R: Wait>(&self, rt: &R, arrival: Arrival) {
        self.lobby.lock(rt).arrival = Some(arrival);
        self.come.notify_one();
    }
}
