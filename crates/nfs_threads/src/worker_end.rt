//! What a worker returns to the end of its run.

ghost use Rattle.std.specs.Prelude.{◌≡◌, [], IsErr, length, map};
ghost use Rattle.nfs_threads.specs.Rooms.{HasRoom};
ghost use Rattle.nfs_threads.specs.Worker.{receipts_back, seats_back};

use crate::Shift;
use nfs_shared::{Naming, Receipt, Seat};
use std::alloc::{AllocError, Global};

/// What a worker gives back: what it served, its seat, and the receipts that the seat was given.
#[derive(Drop)]
pub struct WorkerEnd<N: Naming> {
    pub shift: Shift,
    pub seat: Seat<N>,
    pub receipts: Vec<Receipt>,
}

impl<N: Naming> WorkerEnd<N> {
    /// What a worker gives back that took no connection, since memory is refused.
    pub(crate) fn without_connections(alloc: Global, seat: Seat<N>) -> WorkerEnd<N>
        ensures connections { result.shift.connections.items ≡ [] }
        ensures end { IsErr result.shift.end }
        ensures seat { result.seat ≡ seat }
        ensures receipts { result.receipts.items ≡ [] }
    {
        WorkerEnd {
            shift: Shift {
                connections: Vec::new(alloc),
                end: Err(AllocError),
            },
            seat,
            receipts: Vec::new(alloc),
        }
    }

    /// Puts what each of these workers gave back into the list of its kind, in order.
    pub fn split(
        all: Vec<WorkerEnd<N>>,
        shifts: &mut Vec<Shift>,
        seats: &mut Vec<Seat<N>>,
        receipts: &mut Vec<Vec<Receipt>>,
    )
        requires shifts { HasRoom (length all.items) shifts.old }
        requires seats { HasRoom (length all.items) seats.old }
        requires receipts { HasRoom (length all.items) receipts.old }
        ensures shifts { shifts.new.items ≡ map (λ e. e.shift) all.items }
        ensures seats { seats.new.items ≡ seats_back all.items }
        ensures receipts { map (λ v. v.items) receipts.new.items ≡ receipts_back all.items }
    {
        for end in all {
            let WorkerEnd {
                shift,
                seat,
                receipts: given,
            } = end;
            shifts.push_reserved(shift);
            seats.push_reserved(seat);
            receipts.push_reserved(given);
        }
    }
}
