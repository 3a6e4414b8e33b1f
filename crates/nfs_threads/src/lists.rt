//! Takes the memory for a run's outcome before the run begins, so that its end can't lack memory.

ghost use Rattle.std.specs.Prelude.{IfOk};
ghost use Rattle.nfs_threads.specs.Rooms.{HaveRoom};

use crate::{Shift, TcpLinks, WorkerEnd};
use nfs_shared::{Naming, Receipt, Seat};
use std::alloc::{AllocError, Global};

/// The lists of a run, with room for each of its workers. They are made before the run begins, so that nothing is lost
/// for want of memory when it ends.
#[derive(Drop)]
pub(crate) struct Lists<'a, N: Naming, R, W> {
    pub(crate) links: Vec<(TcpLinks<'a, R, W>, Seat<N>)>,
    /// For workers that can't begin.
    pub(crate) spare: Vec<WorkerEnd<N>>,
    /// For what workers give back.
    pub(crate) shifts: Vec<Shift>,
    pub(crate) seats: Vec<Seat<N>>,
    pub(crate) receipts: Vec<Vec<Receipt>>,
}

impl<'a, N: Naming, R, W> Lists<'a, N, R, W> {
    pub(crate) fn new(alloc: Global, count: usize) -> Result<Lists<'a, N, R, W>, AllocError>
        ensures { IfOk result (HaveRoom count) }
    {
        Ok(Lists {
            links: Vec::with_capacity(alloc, count)?,
            spare: Vec::with_capacity(alloc, count)?,
            shifts: Vec::with_capacity(alloc, count)?,
            seats: Vec::with_capacity(alloc, count)?,
            receipts: Vec::with_capacity(alloc, count)?,
        })
    }
}
