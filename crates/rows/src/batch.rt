//! The order to serve connections, as it is read: how their bytes come, and how time passes.

use crate::connection::Connection;
use crate::failure::Failure;
use crate::input::Input;
use nfs_core::Moment;
use std::alloc::Global;
use std::io::Read;

/// Connections that are served by one order.
#[derive(Drop)]
pub(crate) struct Batch {
    /// The moment of the first call.
    pub(crate) start: Moment,
    /// After how many calls the moment is a second later, or 0 where it stays.
    pub(crate) pace: u32,
    /// The most bytes that a read of a connection gives; it gives one at least.
    pub(crate) piece: usize,
    /// Whether another thread sweeps meanwhile.
    pub(crate) is_swept: bool,
    pub(crate) connections: Vec<Connection>,
}

impl Batch {
    pub(crate) fn read<R: Read + Drop>(
        alloc: Global,
        input: &mut Input<R>,
    ) -> Result<Batch, Failure> {
        let start = input.moment()?;
        let pace = input.word()?;
        let piece = input.word()?;
        let is_swept = input.flag()?;
        let count = input.word()?;
        let mut connections = Vec::new(alloc);
        for _ in 0..count {
            connections.push(Connection::read(alloc, input)?)?;
        }
        Ok(Batch {
            start,
            pace,
            piece: piece as usize,
            is_swept,
            connections,
        })
    }
}
