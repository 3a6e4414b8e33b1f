//! The connections of a worker, which come from a listener or through the door.

ghost use Rattle.std.specs.Prelude.{◌≡◌};

use crate::bell::Bell;
use crate::time_source::TimeSource;
use crate::{Door, Links, Peer, Socket, Uptime, Watcher};
use nfs_server::ServeError;
use std::alloc::AllocError;
use std::net::TcpListener;
use std::sync::Wait;
use std::time::{Clock as Timer, Duration};

// How many milliseconds a worker of a run that goes on waits where memory is refused for the next connection.
const PAUSE_MILLIS: u64 = 100;

/// Where a worker's connections come from.
#[derive(Clone, Copy)]
pub(crate) enum Entrance<'a> {
    /// The next connection that comes to the listener, which is accepted by its first read.
    Listener(&'a TcpListener),
    /// No further connection comes.
    Nowhere,
    /// All that come through the door, until it is closed.
    Door(&'a Door),
}

/// The connections of a worker at a listener.
#[derive(Drop)]
pub struct TcpLinks<'a, R, W> {
    rt: &'a R,
    source: TimeSource<'a>,
    bell: &'a Bell,
    watcher: &'a W,
    entrance: Entrance<'a>,
    // The peer whose connection came last through the door.
    peer: Option<Peer>,
}

impl<'a, R, W> TcpLinks<'a, R, W> {
    /// The source tells the moments of the run, and the bell its end.
    pub(crate) fn new(
        rt: &'a R,
        source: TimeSource<'a>,
        bell: &'a Bell,
        watcher: &'a W,
        entrance: Entrance<'a>,
    ) -> TcpLinks<'a, R, W>
        ensures { result.entrance ≡ entrance.entry }
    {
        TcpLinks {
            rt,
            source,
            bell,
            watcher,
            entrance,
            peer: None,
        }
    }

    /// Links of one more worker, from the same entrance.
    pub(crate) fn again(&self) -> TcpLinks<'a, R, W>
        ensures { result ≡ self.now }
    {
        TcpLinks {
            rt: self.rt,
            source: self.source,
            bell: self.bell,
            watcher: self.watcher,
            entrance: self.entrance,
            peer: self.peer,
        }
    }
}

impl<'a, R: Timer + Wait + Sync, W: Watcher + Sync> Links for TcpLinks<'a, R, W> {
    type Device = Socket<'a, R>;

    type Clock = Uptime<'a, R>;

    ghost use Rattle.nfs_threads.specs.Links.{Opens, Stops};

    ghost opens = { Opens };

    ghost stops = { Stops };

    fn next(&mut self) -> Option<(Socket<'a, R>, Uptime<'a, R>)> {
        let socket = match self.entrance {
            Entrance::Listener(listener) => {
                self.entrance = Entrance::Nowhere;
                Socket::to_accept(self.rt, self.bell, listener)
            }
            Entrance::Nowhere => return None,
            Entrance::Door(door) => {
                let (stream, peer) = door.next(self.rt, self.watcher, self.peer.is_some())?;
                self.peer = Some(peer);
                Socket::of_stream(self.rt, self.bell, stream)
            }
        };
        Some((socket, Uptime::of(self.rt, self.source)))
    }

    fn wait_for_memory(&mut self) -> Result<bool, AllocError> {
        match self.entrance {
            Entrance::Door(_) => {
                let pause = Duration::from_millis(PAUSE_MILLIS);
                Ok(!self.bell.wait(self.rt, pause))
            }
            Entrance::Listener(_) | Entrance::Nowhere => Err(AllocError),
        }
    }

    fn end(&self, outcome: Result<usize, ServeError>) {
        if let Some(peer) = self.peer {
            self.watcher.tell_end(peer, outcome);
        }
    }
}
