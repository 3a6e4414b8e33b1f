//! Laws that each answer to RENEW agrees with the lease words, and so with the journal.

ghost use Rattle.std.specs.Prelude.{ℕ};
ghost use Rattle.nfs_server.specs.Exchange.{rules};
ghost use Rattle.nfs_server.specs.Sides.{device_of};
ghost use Rattle.nfs_threads.specs.Holding.{AreAlikeButRoom, GivenBySeat};
ghost use Rattle.nfs_threads.specs.Renewals.{RenewalsAreEvents, RenewalsAreOfJournal};
ghost use Rattle.nfs_tree.specs.Exports.{Exported};

use nfs_server::{Clock, Duplex, Sink, Source};

/// The law that each RENEW that a desk is asked in a connection is answered by an event of its seat: `NFS4_OK` by a
/// raise of the client's word, else by a look that showed the lease vacant, or by a look or a raise that found it
/// closed.
pub fn renewals_are_events<D: Duplex, R: Source, W: Sink, C: Clock>()
    ensures together { (export : Exported) (epoch : ℕ) → RenewalsAreEvents D.device
        (rules export (GivenBySeat epoch) AreAlikeButRoom C.tells) epoch }
    ensures apart { (export : Exported) (epoch : ℕ) → RenewalsAreEvents
        (device_of R.gives R.fails W.takes W.fails)
        (rules export (GivenBySeat epoch) AreAlikeButRoom C.tells) epoch }
{}

/// The law that each RENEW of a run that was answered `NFS4_OK` names a client that the journal made live; and each
/// other that names a client of the run found its lease vacant, or names a client that the journal ended, or of whose
/// slot it made a later one live.
pub fn renewals_are_of_clients<R, W>()
    ensures { RenewalsAreOfJournal R W }
{}
