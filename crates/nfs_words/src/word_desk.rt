//! Lets the sweep use lease words as a lease table, by the keeper's seat.

ghost use Rattle.std.specs.Prelude.{◌≡◌, true};
ghost use Rattle.std.specs.Arc.{arc_value};
ghost use Rattle.nfs_words.specs.Calls.{FitsTable};

use crate::{LeaseSeat, WordLeases};
use nfs_leases::{Closing, LeaseBook, LeaseState, Renewal};
use nfs_state::Moment;
use std::alloc::Global;
use std::marker::Model;
use std::sync::Arc;

/// A book of leases: the words, with the seat of their keeper. Others renew in it by seats of their own, without a
/// lock. Contracts see the keeper's seat.
#[derive(Drop)]
pub struct WordDesk {
    words: Arc<WordLeases, Global>,
    seat: LeaseSeat,
}

impl Model for WordDesk {
    ghost use Rattle.std.specs.Prelude.{◌≡◌, true};
    ghost use Rattle.std.specs.Arc.{arc_value};
    ghost use Rattle.nfs_words.specs.Calls.{FitsTable};
    ghost use Rattle.nfs_words.specs.Sitting.{Sitting};

    ghost Value = { Sitting };

    ghost view = { λ d. d.seat };

    ghost invariant = { λ d. FitsTable d.seat (arc_value d.words) × (d.seat.view.keeps ≡ true) };
}

impl WordDesk {
    /// The book of these words, in the hands of their keeper.
    pub fn new(words: Arc<WordLeases, Global>, seat: LeaseSeat) -> WordDesk
        requires fits { FitsTable seat (arc_value words) }
        requires keeper { seat.view.keeps ≡ true }
        ensures { result ≡ seat }
    {
        WordDesk { words, seat }
    }

    /// The words, and the seat of their keeper.
    pub fn into_parts(self) -> (Arc<WordLeases, Global>, LeaseSeat)
        ensures fits { FitsTable result.1 (arc_value result.0) }
        ensures seat { result.1 ≡ self }
        ensures keeper { result.1.view.keeps ≡ true }
    {
        let WordDesk { words, seat } = self;
        (words, seat)
    }
}

impl LeaseBook for WordDesk {
    ghost use Rattle.nfs_words.specs.Desk.{Happens, is_open_at, was_opened_at};
    ghost use Rattle.nfs_words.specs.laws.Following.{keeps_lease, open_follows, opened_follows, open_was_opened};

    ghost lease = { λ d. d.view.lease };

    ghost is_open = { is_open_at };

    ghost was_opened = { was_opened_at };

    ghost happens = { Happens };

    fn look(&mut self, client: u32) -> LeaseState {
        self.words.look(&mut self.seat, client)
    }

    fn renew(&mut self, client: u32, moment: Moment) -> Renewal {
        self.words.renew(&mut self.seat, client, moment)
    }

    fn close(&mut self, client: u32, seen: Moment, now: Moment) -> Closing {
        self.words.close(&mut self.seat, client, seen, now)
    }

    fn open(&mut self, client: u32, moment: Moment) {
        self.words.open(&mut self.seat, client, moment);
    }

    fn retire(&mut self, client: u32) {
        self.words.retire(&mut self.seat, client);
    }

    ghost keeps_lease = { keeps_lease };

    ghost open_follows = { open_follows };

    ghost opened_follows = { opened_follows };

    ghost open_was_opened = { open_was_opened };
}
