//! Connections to clients, behind a trait: so clauses can say which bytes go out.
ghost use Rattle.std.specs.Prelude.{length};
ghost use Rattle.nfs_callbacks.specs.Network.{Closes, Dials, MovesWithin, Traffic, Waits, hearing, sending};

use crate::flow::{ConnectError, Moved};
use std::net::SocketAddrV4;
use std::time::Duration;

/// Connections to clients, at most one to each, named by the client's number. Nothing waits on a connection.
pub trait Network {
    /// What may happen: the state before, what is done, and the state after.
    ghost carries: { Self → Traffic → Self → Type 0 };

    /// Begins to connect to this address.
    fn connect(&mut self, client: u32, address: SocketAddrV4) -> Result<(), ConnectError>
        ensures { carries self.old (Dials client address result) self.new };

    /// Writes some of these bytes, from their front.
    fn write(&mut self, client: u32, bytes: &[u8]) -> Moved
        ensures within { MovesWithin (length bytes.now) result }
        ensures carries { carries self.old (sending client bytes.now result) self.new };

    /// Reads some bytes to the front of this place.
    fn read(&mut self, client: u32, place: &mut [u8]) -> Moved
        ensures within { MovesWithin (length place.new) result }
        ensures carries { carries self.old (hearing client place.new result) self.new };

    /// Closes the connection.
    fn close(&mut self, client: u32)
        ensures { carries self.old (Closes client) self.new };

    /// Waits until a connection is ready, but no longer than this.
    fn wait(&mut self, most: Duration)
        ensures { carries self.old Waits self.new };

    /// The next of the clients whose connections were ready after the last wait.
    fn ready(&mut self) -> Option<u32>
        ensures { carries self.old Waits self.new };
}
