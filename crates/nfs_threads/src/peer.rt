//! Names a connection in the lines of a run, by number and address.

use std::net::SocketAddr;

/// Who is at the other end of a connection.
#[derive(Clone, Copy)]
pub struct Peer {
    /// The connection's number, from 1 on, in the order in which they came.
    pub number: u64,
    pub address: SocketAddr,
}
