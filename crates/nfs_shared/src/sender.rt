//! The one sender of a run, which takes recalls from the queue and marks clients' callback paths.

use crate::naming::{Naming, OtherLedger};
use crate::recall_queue::TakePass;
use std::marker::Model;
use std::sync::ledger::Share;

/// The sender of a run, which sends recalls and marks the paths to clients' callbacks. Contracts see the recalls that
/// it took from the queue, in order; the recalls that it knows to be put there; and how many entries of the journal it
/// made.
#[derive(Drop)]
pub struct Sender<N: Naming> {
    pub(crate) pass: TakePass,
    pub(crate) share: Share<OtherLedger<N>>,
}

impl<N: Naming> Model for Sender<N> {
    ghost use Rattle.std.specs.Prelude.{◌≡◌};
    ghost use Rattle.nfs_shared.specs.Sender.{SenderView};

    ghost Value = { SenderView };

    ghost view = { λ s. record {
      taken = s.pass.recalls;
      known_put = s.pass.known;
      count = s.share.amount;
    } };

    ghost invariant = { λ s. (s.share.parts ≡ 1) × (s.pass.queue ≡ N.run.queue) };
}
