//! Laws that a worker's receipts are exactly the entries of what its connections asked.

ghost use Rattle.std.specs.Prelude.{ℕ};
ghost use Rattle.nfs_server.specs.Exchange.{rules};
ghost use Rattle.nfs_shared.specs.Seats.{SeatView};
ghost use Rattle.nfs_threads.specs.Holding.{AreAlikeButRoom, GivenBySeat};
ghost use Rattle.nfs_threads.specs.Parts.{HasParts};
ghost use Rattle.nfs_threads.specs.Receipts.{ReceiptsAreQuestions};
ghost use Rattle.nfs_threads.specs.Worker.{IsEndOf, linking};
ghost use Rattle.nfs_threads.specs.declared.worker_end.WorkerEnd.{WorkerEnd};
ghost use Rattle.nfs_server.specs.Sides.{device_of};
ghost use Rattle.nfs_tree.specs.Tree.{Files};
ghost use Rattle.nfs_server.specs.Serves.{served_by};
ghost use Rattle.nfs_tree.specs.Exports.{Exported};

use crate::Links;
use nfs_server::{Clock, Duplex, Sink, Source};
use nfs_shared::Naming;

/// The law that the receipts which a desk is given in a connection are for the operations that it was asked, with their
/// answers and in order, except those that were answered `NFS4ERR_RESOURCE`; that they bear the place of its seat; and
/// that their numbers rise.
pub fn receipts_are_questions<D: Duplex, R: Source, W: Sink, C: Clock>()
    ensures together { (export : Exported) (epoch : ℕ) → ReceiptsAreQuestions D.device
        (rules export (GivenBySeat epoch) AreAlikeButRoom C.tells) }
    ensures apart { (export : Exported) (epoch : ℕ) → ReceiptsAreQuestions
        (device_of R.gives R.fails W.takes W.fails)
        (rules export (GivenBySeat epoch) AreAlikeButRoom C.tells) }
{}

/// The law that the receipts which a worker gives back are the parts of its connections, one after the other, and that
/// each part is what its connection's questions gain.
pub fn receipts_by_connection<N: Naming, L: Links>()
    ensures { (tree : Files) (links : L) (seat : SeatView) (end : WorkerEnd N)
        → IsEndOf (linking L.Links L.Device.Duplex L.Clock.Clock (served_by N.start)) tree links seat end
        → HasParts (linking L.Links L.Device.Duplex L.Clock.Clock (served_by N.start)) tree links seat end }
{}
