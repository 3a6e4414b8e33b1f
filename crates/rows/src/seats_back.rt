//! Collects the seats that workers return, since only all of them end the shared state.

ghost use Rattle.std.specs.Prelude.{◌≡◌, ◌+◌, ◌∷◌, ◌++◌, [], OnErr, OnOk, length, map};
ghost use Rattle.std.specs.Vec.Iter.{into_iter_items};
ghost use Rattle.nfs_core.specs.Server.{IsLawful};
ghost use Rattle.nfs_shared.specs.Ends.{AllApart, AllStand, AreKept, IsKept, receipts_in};
ghost use Rattle.nfs_shared.specs.Naming.{start_of};
ghost use Rattle.nfs_shared.specs.Receipts.{calls_in, others_in};
ghost use Rattle.rows.specs.Places.{AreBackFrom, AreFreshFrom};

use nfs_core::Core;
use nfs_shared::{Naming, Receipt, Seat, Sender, Shared, Sweeper};
use nfs_threads::WorkerEnd;
use std::alloc::{AllocError, Global};
use std::marker::Model;
use std::vec::IntoIter;

/// What came back of a run: seats, in the order of their places, and with each the receipts that it was given.
#[derive(Drop)]
pub(crate) struct SeatsBack<N: Naming> {
    alloc: Global,
    seats: Vec<Seat<N>>,
    receipts: Vec<Vec<Receipt>>,
}

impl<N: Naming> Model for SeatsBack<N> {
    ghost use Rattle.std.specs.Prelude.{map};
    ghost use Rattle.nfs_shared.specs.Ends.{AreKept};
    ghost use Rattle.rows.specs.Places.{BackView};

    ghost Value = { BackView };

    ghost view = { λ b. record {
      seats = b.seats.items;
      receipts = map (λ v. v.items) b.receipts.items;
    } };

    ghost invariant = { λ b. AreKept b.seats.items (map (λ v. v.items) b.receipts.items) };
}

impl<N: Naming> SeatsBack<N> {
    /// A collection in which no worker has handed in its seat yet.
    pub(crate) fn new(alloc: Global) -> SeatsBack<N>
        ensures { result ≡ record { seats = []; receipts = [] } }
    {
        SeatsBack {
            alloc,
            seats: Vec::new(alloc),
            receipts: Vec::new(alloc),
        }
    }

    /// A worker hands in the seat of the next place, and all of its receipts.
    pub(crate) fn hand_in(
        &mut self,
        seat: Seat<N>,
        receipts: Vec<Receipt>,
    ) -> Result<(), AllocError>
        requires place { seat.place ≡ length self.old.seats }
        requires kept { IsKept seat receipts.items }
        ensures seats { OnOk result (self.new.seats ≡ self.old.seats ++ seat ∷ []) }
        ensures receipts { OnOk result
            (self.new.receipts ≡ self.old.receipts ++ receipts.items ∷ []) }
        ensures err { OnErr result (self.new ≡ self.old) }
    {
        self.seats.reserve(1)?;
        self.receipts.reserve(1)?;
        self.seats.push_reserved(seat);
        self.receipts.push_reserved(receipts);
        Ok(())
    }

    /// Workers hand in the seats of the next places, and all of their receipts.
    pub(crate) fn hand_in_all(&mut self, ends: Vec<WorkerEnd<N>>) -> Result<(), AllocError>
        requires next { AreBackFrom (length self.old.seats) ends.items }
        ensures { OnOk result
            (length self.new.seats ≡ length self.old.seats + length ends.items) }
    {
        for end in ends {
            let WorkerEnd {
                shift: _,
                seat,
                receipts,
            } = end;
            self.hand_in(seat, receipts)?;
        }
        Ok(())
    }

    /// The seats of the next places come back as they were made.
    pub(crate) fn hand_in_unused(&mut self, seats: IntoIter<Seat<N>>) -> Result<(), AllocError>
        requires next { AreFreshFrom N.run.words (length self.old.seats) (into_iter_items seats) }
        ensures { OnOk result
            (length self.new.seats ≡ length self.old.seats + length (into_iter_items seats)) }
    {
        for seat in seats {
            self.hand_in(seat, Vec::new(self.alloc))?;
        }
        Ok(())
    }

    /// The core, once the sweeper has ended and all workers have handed in their seats; and the receipts by the places
    /// of their seats.
    pub(crate) fn end(
        self,
        shared: Shared<N>,
        sweeper: Sweeper<N>,
        sender: Sender<N>,
    ) -> (Core, Vec<Vec<Receipt>>)
        requires all { length self.seats ≡ N.run.workers }
        ensures start { start_of result.0.journal ≡ N.start }
        ensures lawful { IsLawful result.0 }
        ensures receipts { map (λ v. v.items) result.1.items ≡ self.receipts }
        ensures stand { AllStand result.0.journal.entries self.receipts }
        ensures apart { AllApart self.receipts }
        ensures counted { calls_in result.0.journal.entries ≡ receipts_in self.receipts }
        ensures others { others_in result.0.journal.entries ≡ sweeper.count + sender.count }
    {
        let SeatsBack {
            alloc: _,
            seats,
            receipts,
        } = self;
        let core = shared.end(receipts.as_slice(), seats, sweeper, sender);
        (core, receipts)
    }
}
