//! What a worker did: the connections that it served, and why it took no further one.

use crate::ConnectionEnd;
use std::alloc::AllocError;

/// The connections that a worker served, one after the other.
#[derive(Drop)]
pub struct Shift {
    pub connections: Vec<ConnectionEnd>,
    /// Whether no further connection was to be served; or memory or a thread was refused, and no further one was taken.
    pub end: Result<(), AllocError>,
}
