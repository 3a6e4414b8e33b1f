//! What a plain lease table keeps for each slot.

ghost use Rattle.std.specs.Prelude.{◌≡◌};
ghost use Rattle.nfs_leases.specs.PlainBook.{lease_in};

use crate::LeaseState;
use std::cmp::Ordering;

/// The place of a slot in a plain book: the last of its generations whose lease was opened, with that lease.
#[derive(Clone, Copy)]
pub(crate) struct Place {
    pub(crate) generation: u32,
    pub(crate) lease: LeaseState,
}

impl Place {
    /// The place of a slot of which no lease was opened.
    pub(crate) const EMPTY: Place = Place {
        generation: 0,
        lease: LeaseState::Vacant,
    };

    /// The lease of this generation of the slot.
    pub(crate) fn lease_in(self, generation: u32) -> LeaseState
        ensures { result ≡ lease_in self generation }
    {
        match self.generation.cmp(&generation) {
            Ordering::Less => LeaseState::Vacant,
            Ordering::Equal => self.lease,
            Ordering::Greater => LeaseState::Closed,
        }
    }
}
