//! The one sweeper of a run, which removes clients whose leases are over.

use crate::naming::{Naming, OtherLedger};
use std::marker::Model;
use std::sync::ledger::Share;

/// The sweeper of a run. Besides calls, only what it and the `Sender` do makes entries of the journal. Contracts see
/// how many entries the sweeper made.
#[derive(Drop)]
pub struct Sweeper<N: Naming> {
    pub(crate) share: Share<OtherLedger<N>>,
}

impl<N: Naming> Model for Sweeper<N> {
    ghost use Rattle.std.specs.Prelude.{◌≡◌};
    ghost use Rattle.nfs_shared.specs.Sweeper.{SweeperView};

    ghost Value = { SweeperView };

    ghost view = { λ s. record { count = s.share.amount } };

    ghost invariant = { λ s. s.share.parts ≡ 1 };
}
