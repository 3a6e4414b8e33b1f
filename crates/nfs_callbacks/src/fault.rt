//! Why a call didn't reach its client, as whoever runs the server reads it.

use std::io::{Error, ErrorKind};
use thiserror::Error;

/// Why a call didn't reach its client.
#[derive(Clone, Copy, Debug, PartialEq, Eq, Error)]
pub enum Fault {
    /// The client's address names no socket that can be called.
    #[error("no usable address")]
    NoAddress,
    #[error("connection refused")]
    ConnectionRefused,
    #[error("host or network unreachable")]
    Unreachable,
    #[error("connection timed out")]
    TimedOut,
    /// The connection failed otherwise.
    #[error("connection failed")]
    ConnectionFailed,
    #[error("connection closed before a reply")]
    Closed,
    #[error("reply of another xid")]
    OtherXid,
    #[error("PROG_UNAVAIL")]
    ProgUnavail,
    #[error("PROG_MISMATCH")]
    ProgMismatch,
    #[error("PROC_UNAVAIL")]
    ProcUnavail,
    #[error("GARBAGE_ARGS")]
    GarbageArgs,
    #[error("SYSTEM_ERR")]
    SystemError,
    #[error("RPC_MISMATCH")]
    RpcMismatch,
    #[error("AUTH_ERROR")]
    AuthError,
    /// The result of CB_COMPOUND has this status.
    #[error("status {0} of CB_COMPOUND")]
    Status(u32),
    #[error("reply that can't be read")]
    Unreadable,
    #[error("reply that is too long")]
    TooLong,
}

impl Fault {
    /// What a connection says that failed with this error.
    pub(crate) fn of_connection(error: &Error) -> Fault {
        match error.kind() {
            ErrorKind::ConnectionRefused => Fault::ConnectionRefused,
            ErrorKind::HostUnreachable | ErrorKind::NetworkUnreachable => Fault::Unreachable,
            ErrorKind::TimedOut => Fault::TimedOut,
            ErrorKind::ConnectionReset | ErrorKind::ConnectionAborted | ErrorKind::BrokenPipe => {
                Fault::Closed
            }
            _ => Fault::ConnectionFailed,
        }
    }
}
