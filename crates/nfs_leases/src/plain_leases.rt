//! A lease table for one thread, as `once` and the tests use it.

ghost use Rattle.std.specs.Prelude.{◌≡◌, ◌<◌, ℕ, IfOk, false, length, replicate, slice_index_or, slice_set};
ghost use Rattle.nfs_owners.specs.Slots.{generation_of, slot_of};
ghost use Rattle.nfs_owners.specs.declared.slots.TheConstants.{SLOTS};
ghost use Rattle.nfs_leases.specs.PlainBook.{Happens, empty_place, is_open_in, lease_in, was_opened_in};

use crate::place::Place;
use crate::{Closing, LeaseBook, LeaseState, Renewal};
use nfs_owners::{SLOTS, generation_of, slot_of};
use nfs_state::Moment;
use std::alloc::{AllocError, Global};
use std::marker::Model;

/// A book of leases that is a plain list, with a place for each slot of clients' numbers. Nobody else renews in it.
#[derive(Drop)]
pub struct PlainLeases {
    lease: u32,
    places: Vec<Place>,
}

impl Model for PlainLeases {
    ghost use Rattle.std.specs.Prelude.{◌≡◌, length};
    ghost use Rattle.nfs_owners.specs.declared.slots.TheConstants.{SLOTS};
    ghost use Rattle.nfs_leases.specs.PlainBook.{PlainBook};

    ghost Value = { PlainBook };

    ghost view = { λ b. record { lease = b.lease; places = b.places.items } };

    ghost invariant = { λ b. length b.places.items ≡ SLOTS };
}

impl PlainLeases {
    /// A book in which no lease was opened; `lease` is in seconds. It fails where memory is refused for its places.
    pub fn new(alloc: Global, lease: u32) -> Result<PlainLeases, AllocError>
        ensures value { IfOk result (λ book. book ≡ record {
          lease = lease;
          places = replicate SLOTS empty_place;
        }) }
        ensures closed { IfOk result (λ book. (client : ℕ) → is_open_in book client ≡ false) }
        ensures fresh { IfOk result (λ book. (client : ℕ) → was_opened_in book client ≡ false) }
    {
        Ok(PlainLeases {
            lease,
            places: vec![in alloc; Place::EMPTY; SLOTS as usize]?,
        })
    }
}

// The client's lease.
fn lease_at(places: &[Place], client: u32) -> LeaseState
    requires { slot_of client < length places.now }
    ensures { result ≡ lease_in (slice_index_or places.now (slot_of client) empty_place)
        (generation_of client) }
{
    let place = places[slot_of(client) as usize];
    place.lease_in(generation_of(client))
}

// The client's lease becomes this one.
fn put(places: &mut [Place], client: u32, lease: LeaseState)
    requires { slot_of client < length places.old }
    ensures { places.new ≡ slice_set places.old (slot_of client) (record {
      generation = generation_of client;
      lease = lease;
    }) }
{
    places[slot_of(client) as usize] = Place {
        generation: generation_of(client),
        lease,
    };
}

impl LeaseBook for PlainLeases {
    ghost use Rattle.nfs_leases.specs.laws.Following.{keeps_lease, open_follows, opened_follows, open_was_opened};

    ghost lease = { λ b. b.lease };

    ghost is_open = { is_open_in };

    ghost was_opened = { was_opened_in };

    ghost happens = { Happens };

    fn look(&mut self, client: u32) -> LeaseState {
        lease_at(&self.places, client)
    }

    fn renew(&mut self, client: u32, moment: Moment) -> Renewal {
        match lease_at(&self.places, client) {
            LeaseState::Vacant => Renewal::Unknown,
            LeaseState::Closed => Renewal::Closed,
            LeaseState::Open(last) => {
                let latest = if last.seconds() < moment.seconds() {
                    moment
                } else {
                    last
                };
                put(&mut self.places, client, LeaseState::Open(latest));
                Renewal::Renewed
            }
        }
    }

    fn close(&mut self, client: u32, seen: Moment, _now: Moment) -> Closing {
        match lease_at(&self.places, client) {
            LeaseState::Open(last) if last.seconds() == seen.seconds() => {
                put(&mut self.places, client, LeaseState::Closed);
                Closing::Closed
            }
            _ => Closing::Changed,
        }
    }

    fn open(&mut self, client: u32, moment: Moment) {
        put(&mut self.places, client, LeaseState::Open(moment));
    }

    fn retire(&mut self, client: u32) {
        let last = self.places[slot_of(client) as usize].generation;
        // Where a later one of its slot was opened, the lease has ended.
        if last <= generation_of(client) {
            put(&mut self.places, client, LeaseState::Closed);
        }
    }

    ghost keeps_lease = { keeps_lease };

    ghost open_follows = { open_follows };

    ghost opened_follows = { opened_follows };

    ghost open_was_opened = { open_was_opened };
}
