//! Names a run of threads by a type, so that receipts and seats of two runs can't be mixed up.

use std::marker::{Brand, PhantomData};
use std::sync::ledger::Ledger;

/// Names a run of threads: what was opened for it, and what the server was started with. No type stands for these
/// before they are there. So they are picked where a function is called that is generic over the name.
pub trait Naming {
    ghost use Rattle.nfs_shared.specs.Naming.{OpenedView};
    ghost use Rattle.nfs_state.specs.State.{History};

    ghost run: { OpenedView };

    ghost start: { History };
}

impl Naming for Brand {
    ghost use Rattle.nfs_shared.specs.Naming.{no_run, no_start};

    ghost run = { no_run };

    ghost start = { no_start };
}

/// The ledger of the receipts that are given in a run, with a part for each worker.
pub struct ReceiptLedger<N> {
    run: PhantomData<N>,
}

impl<N: Naming> Ledger for ReceiptLedger<N> {
    ghost name = { N.run.receipt_ledger };

    ghost parts = { N.run.workers };
}

/// The ledger of the entries of a run that are no calls, in two parts: that of sweeps, and that of marks of paths.
pub struct OtherLedger<N> {
    run: PhantomData<N>,
}

impl<N: Naming> Ledger for OtherLedger<N> {
    ghost name = { N.run.other_ledger };

    ghost parts = { 2 };
}
