//! States as a law that what workers return suffices to end the shared state.

ghost use Rattle.std.specs.Prelude.{◌≡◌, ℕ, List, length};
ghost use Rattle.nfs_threads.specs.Worker.{AreEndsOf, linking, receipts_back, seats_back, seats_of};
ghost use Rattle.nfs_threads.specs.declared.worker_end.WorkerEnd.{WorkerEnd};
ghost use Rattle.nfs_shared.specs.Ends.{AreFresh, AreKept};
ghost use Rattle.nfs_shared.specs.Seats.{SeatView};
ghost use Rattle.nfs_tree.specs.Tree.{Files};
ghost use Rattle.nfs_words.specs.Sitting.{Words};
ghost use Rattle.nfs_server.specs.Serves.{served_by};

use crate::Links;
use nfs_shared::Naming;

/// The law that the seats and the receipts that workers give back are what `Shared::end` asks for, if their links were
/// served at fresh seats, in the order of the places.
pub fn workers_keep_receipts<N: Naming, L: Links>()
    ensures { (tree : Files) (words : Words) (count : ℕ) (links : List (L × SeatView))
        (ends : List (WorkerEnd N))
        → AreFresh words count (seats_of links)
        → AreEndsOf (linking L.Links L.Device.Duplex L.Clock.Clock (served_by N.start)) tree links ends
        → (length (seats_back ends) ≡ count) × AreKept (seats_back ends) (receipts_back ends) }
{}
