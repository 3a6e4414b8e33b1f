//! How a connection ended, and which of its worker's receipts came from it.

use nfs_server::ServeError;

/// How a connection ended.
#[derive(Clone, Copy)]
pub struct ConnectionEnd {
    /// The number of bytes after the last whole record, or the error with which the connection ended.
    pub result: Result<usize, ServeError>,
    /// How many receipts its worker had when it began. Its own are from there on, up to those of the next connection.
    pub first: usize,
}
