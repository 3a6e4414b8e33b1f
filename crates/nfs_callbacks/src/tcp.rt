//! Connections over TCP, by mio.
ghost use Rattle.std.specs.Prelude.{ℕ, ◌≤◌, IfOk};
ghost use Rattle.nfs_callbacks.specs.Network.{MovesWithin};

use crate::flow::{ConnectError, Moved};
use crate::{Fault, Network};
use mio::net::TcpStream;
use mio::{Events, Interest, Poll, Token, Waker};
use std::alloc::Global;
use std::collections::{BTreeMap, VecDeque};
use std::io;
use std::io::{Error, ErrorKind, Read, Write};
use std::marker::Model;
use std::net::{Net, SocketAddr, SocketAddrV4};
use std::time::Duration;

// Of how many connections a wait tells at most.
const EVENT_LIMIT: usize = 512;

// The token of the waker, which is no client's number.
const WAKER: Token = Token(usize::MAX);

// For what the system refuses a socket that has nothing to do with the peer: EINTR, EAGAIN, ENOMEM, ENFILE, EMFILE,
// EADDRNOTAVAIL and ENOBUFS, by Linux's numbers.
const REFUSALS: [i32; 7] = [4, 11, 12, 23, 24, 99, 105];

/// Connections over TCP. No clause says what goes over them.
#[derive(Drop)]
pub struct TcpNetwork<'a, N: Net> {
    net: &'a N,
    poll: Poll,
    events: Events,
    // The clients whose connections were ready after the last wait, and weren't told yet.
    ready: VecDeque<u32>,
    streams: BTreeMap<u32, TcpStream, Global>,
}

impl<'a, N: Net> Model for TcpNetwork<'a, N> {
    ghost Value = { Unit {0} };

    ghost view = { λ network. tt };
}

impl<'a, N: Net> TcpNetwork<'a, N> {
    /// No connection yet.
    pub fn new(alloc: Global, net: &'a N) -> io::Result<TcpNetwork<'a, N>> {
        Ok(TcpNetwork {
            net,
            poll: Poll::new(net)?,
            events: Events::with_capacity(alloc, EVENT_LIMIT)?,
            ready: VecDeque::with_capacity(alloc, EVENT_LIMIT)?,
            streams: BTreeMap::new(alloc),
        })
    }

    /// What ends a wait of this network from another thread.
    pub fn waker(&self) -> io::Result<Waker> {
        Waker::new(self.poll.registry(), WAKER)
    }
}

impl<N: Net> Network for TcpNetwork<'_, N> {
    ghost use Rattle.std.specs.Prelude.{⊤};

    ghost carries = { λ old traffic new. ⊤ };

    fn connect(&mut self, client: u32, address: SocketAddrV4) -> Result<(), ConnectError> {
        let mut stream = match TcpStream::connect(self.net, SocketAddr::V4(address)) {
            Ok(stream) => stream,
            Err(error) => return Err(connect_error(&error)),
        };
        let both = Interest::READABLE | Interest::WRITABLE;
        let token = Token(client as usize);
        if self
            .poll
            .registry()
            .register(&mut stream, token, both)
            .is_err()
        {
            return Err(ConnectError::Refused);
        }
        match self.streams.insert(client, stream) {
            Ok(_) => Ok(()),
            Err(_) => Err(ConnectError::Refused),
        }
    }

    fn write(&mut self, client: u32, bytes: &[u8]) -> Moved {
        match self.streams.get_mut(&client) {
            Some(stream) => moved(stream.write(bytes)),
            None => Moved::Broken(Fault::ConnectionFailed),
        }
    }

    fn read(&mut self, client: u32, place: &mut [u8]) -> Moved {
        match self.streams.get_mut(&client) {
            Some(stream) => moved(stream.read(place)),
            None => Moved::Broken(Fault::ConnectionFailed),
        }
    }

    fn close(&mut self, client: u32) {
        self.streams.remove(&client);
    }

    fn wait(&mut self, most: Duration) {
        self.ready.clear();
        // If the wait fails, there are no events.
        let _ = self.poll.poll(&mut self.events, Some(most));
        for event in &self.events {
            if let Ok(client) = u32::try_from(event.token().0) {
                // There is memory for as many clients as there are events.
                let _ = self.ready.push_back(client);
            }
        }
    }

    fn ready(&mut self) -> Option<u32> {
        self.ready.pop_front()
    }
}

// A read or a write of no bytes says that the connection is over.
fn moved(came: io::Result<usize>) -> Moved
    ensures { (most : ℕ) → IfOk came (λ count. count ≤ most) → MovesWithin most result }
{
    match came {
        Ok(0) => Moved::Broken(Fault::Closed),
        Ok(count) => Moved::Bytes(count),
        Err(error) => match error.kind() {
            ErrorKind::WouldBlock => Moved::Blocked,
            ErrorKind::Interrupted => Moved::Bytes(0),
            _ => Moved::Broken(Fault::of_connection(&error)),
        },
    }
}

// What a connection that couldn't be begun says of the client.
fn connect_error(error: &Error) -> ConnectError {
    match error.raw_os_error() {
        Some(number) if REFUSALS.contains(&number) => ConnectError::Refused,
        _ => ConnectError::Fault(Fault::of_connection(error)),
    }
}
