//! The service of a worker's connections: takes the lock once for a batch, and renews leases without the lock.

ghost use Rattle.std.specs.Prelude.{◌≡◌, [], length, refl};
ghost use Rattle.nfs_threads.specs.Holding.{AreAlikeButRoom, GivenBySeat};
ghost use Rattle.nfs_shared.specs.Ends.{IsKept};
ghost use Rattle.nfs_server.specs.Serves.{served_by};

use nfs_core::Moment;
use nfs_leases::{Renewal, renewal_answer};
use nfs_server::Service;
use nfs_shared::{Hold, Naming, Receipt, Seat, Shared};
use nfs_state::Request;
use nfs_tree::Profile;
use nfs_xdr::{ClientId, OpResult};
use std::alloc::{AllocError, Global};
use std::marker::Model;
use std::sync::Wait;

/// A worker at the state that threads share: the service of its connection. It keeps the receipts that it is given, and
/// has a hold of the lock while it answers a batch, from its first question on that needs one. Leases it renews without
/// the lock. The handle by which it may wait for the lock is part of it, as services are called without one.
#[derive(Drop)]
pub struct Desk<'a, N: Naming, R: Wait> {
    rt: &'a R,
    shared: &'a Shared<N>,
    // Whether a batch is under way, and the hold of the lock in which it is answered. A batch that asks nothing but
    // RENEW takes none.
    is_batch: bool,
    hold: Option<Hold<'a, 'a, N, R>>,
    seat: Seat<N>,
    receipts: Vec<Receipt>,
}

impl<'a, N: Naming, R: Wait> Model for Desk<'a, N, R> {
    ghost use Rattle.std.specs.Prelude.{◌-◌, length, vec_capacity};
    ghost use Rattle.nfs_threads.specs.Holding.{Holding};
    ghost use Rattle.nfs_shared.specs.Ends.{IsKept};

    ghost Value = { Holding };

    ghost view = { λ d. record {
      seat = d.seat;
      receipts = d.receipts.items;
      room = vec_capacity d.receipts - length d.receipts.items;
    } };

    ghost invariant = { λ d. IsKept d.seat d.receipts.items };
}

impl<'a, N: Naming, R: Wait> Desk<'a, N, R> {
    /// A desk with a seat that was given nothing. It takes no memory.
    pub fn new(alloc: Global, rt: &'a R, shared: &'a Shared<N>, seat: Seat<N>) -> Desk<'a, N, R>
        requires new { IsKept seat [] }
        ensures seat { result.seat ≡ seat }
        ensures receipts { result.receipts ≡ [] }
    {
        Desk {
            rt,
            shared,
            is_batch: false,
            hold: None,
            seat,
            receipts: Vec::new(alloc),
        }
    }

    /// How many receipts it has.
    pub fn count(&self) -> usize
        ensures { result ≡ length self.now.receipts }
    {
        self.receipts.len()
    }

    /// Returns the seat, and the receipts that it was given, in order.
    pub fn into_parts(self) -> (Seat<N>, Vec<Receipt>)
        ensures seat { result.0 ≡ self.entry.seat }
        ensures receipts { result.1.items ≡ self.entry.receipts }
        ensures kept { IsKept result.0 result.1.items }
    {
        let Desk {
            rt: _,
            shared: _,
            is_batch: _,
            hold: _,
            seat,
            receipts,
        } = self;
        (seat, receipts)
    }
}

impl<'a, N: Naming, R: Wait> Service for Desk<'a, N, R> {
    ghost gives = { GivenBySeat N.start.epoch };

    ghost alike = { AreAlikeButRoom };

    ghost alike_same = { λ d. refl };

    ghost serves = { λ d. served_by N.start };

    ghost room = { λ d. d.room };

    fn epoch(&self) -> u32 {
        self.shared.epoch()
    }

    fn profile(&self) -> Profile {
        self.shared.profile()
    }

    fn room(&mut self, questions: usize) -> Result<(), AllocError> {
        self.receipts.reserve(questions)
    }

    fn begin_batch(&mut self) {
        self.is_batch = true;
    }

    fn end_batch(&mut self) {
        self.is_batch = false;
        self.hold = None;
    }

    fn call(&mut self, request: Request) -> OpResult {
        let (hold, seat) = (&mut self.hold, &mut self.seat);
        let (answer, receipt) = self.shared.call_in(self.rt, hold, seat, request);
        let_go(&mut self.hold, self.is_batch);
        if let Some(receipt) = receipt {
            self.receipts.push_reserved(receipt);
        }
        answer
    }

    fn renew(&mut self, moment: Moment, client: ClientId) -> OpResult {
        let told = self.shared.renew(&mut self.seat, client, moment);
        let is_open = matches!(told, Some(Renewal::Renewed));
        let answer = OpResult::Renew(renewal_answer(is_open));
        answer.fits();
        answer
    }
}

// Gives the lock back, unless a batch is under way.
fn let_go<N: Naming, R: Wait>(hold: &mut Option<Hold<'_, '_, N, R>>, is_batch: bool) {
    if !is_batch {
        *hold = None;
    }
}
