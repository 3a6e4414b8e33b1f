//! The orders that the program obeys, as they are read.

use crate::batch::Batch;
use crate::failure::Failure;
use crate::input::Input;
use nfs_core::Moment;
use std::alloc::Global;
use std::io::Read;

/// What the program is told to do.
#[derive(Drop)]
pub(crate) enum Order {
    /// To serve these connections.
    Serve(Batch),
    /// To look through the leases, the delegations and the open owners, as at this moment.
    Sweep(Moment),
    /// To say of a client whether callbacks reach it.
    Mark(Mark),
    /// To revoke a delegation that is due, as at this moment.
    Revoke(Moment),
    /// To take the first of the recalls that wait, and to write it with this xid.
    Take(u32),
    /// To count the recalls that wait.
    Pending,
    /// To tell of whose path nothing is known: of the least client number above this one.
    Probe(u32),
    /// To forget the next open owner that may be forgotten, as at this moment.
    Forget(Moment),
}

/// Whether callbacks reach the client with this number.
#[derive(Clone, Copy)]
pub(crate) struct Mark {
    pub(crate) client: u32,
    pub(crate) is_up: bool,
}

impl Order {
    /// The next order, or none where the input ends.
    pub(crate) fn read<R: Read + Drop>(
        alloc: Global,
        input: &mut Input<R>,
    ) -> Result<Option<Order>, Failure> {
        match input.next_word()? {
            None => Ok(None),
            Some(1) => Ok(Some(Order::Serve(Batch::read(alloc, input)?))),
            Some(2) => Ok(Some(Order::Sweep(input.moment()?))),
            Some(3) => Ok(Some(Order::Mark(Mark::read(input)?))),
            Some(4) => Ok(Some(Order::Revoke(input.moment()?))),
            Some(5) => Ok(Some(Order::Take(input.word()?))),
            Some(6) => Ok(Some(Order::Pending)),
            Some(7) => Ok(Some(Order::Probe(input.word()?))),
            Some(8) => Ok(Some(Order::Forget(input.moment()?))),
            Some(_) => Err(Failure::Input),
        }
    }
}

impl Mark {
    fn read<R: Read + Drop>(input: &mut Input<R>) -> Result<Mark, Failure> {
        let client = input.word()?;
        let is_up = input.flag()?;
        Ok(Mark { client, is_up })
    }
}
