//! What comes of the use of a connection.

use crate::Fault;

/// Why a connection wasn't begun.
#[derive(Clone, Copy, PartialEq, Eq)]
pub enum ConnectError {
    /// The client can't be called at its address.
    Fault(Fault),
    /// The system refused a socket or memory, for which the client can't do anything.
    Refused,
}

/// What came of a write or a read.
#[derive(Clone, Copy, PartialEq, Eq)]
pub enum Moved {
    /// So many bytes went through: none if only a signal came.
    Bytes(usize),
    /// No byte can go through for now.
    Blocked,
    /// The connection failed, or the peer has ended it.
    Broken(Fault),
}
