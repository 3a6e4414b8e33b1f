//! The clients' records, with the numbers and confirm values that were given out.

ghost use Rattle.std.specs.Prelude.{◌≡◌, ◌-◌, ◌^◌, ◌<◌, ◌≤◌, IsOk, IsTrue, OnOk, find, length, option_map};
ghost use Rattle.std.specs.Option.{option_copied};
ghost use Rattle.nfs_owners.specs.Registry.{client_seen, is_named_by, record_state};

mod choice;
mod client_change;
mod confirmation;
mod path_marks;
mod records;
mod registration;

use crate::slots::{SLOTS, generation_of, slot_of};
use crate::{ClientRecord, ClientRef, ClientState};
pub use client_change::ClientChange;
use nfs_operations::setclientid_confirm::SetclientidConfirm;
use nfs_rows::IdSeed;
use nfs_xdr::ClientId;
use records::Records;
use std::alloc::{AllocError, Global};
use std::marker::Model;

/// The clients' confirmed and unconfirmed records, each in the order in which they were added, and the numbers that
/// were given out. An id has at most one record of each kind, and a client number is that of one id. SETCLIENTID and
/// SETCLIENTID_CONFIRM are decided first (`set`, `confirm`); after `make_room` the change takes no memory.
#[derive(Drop)]
pub struct Clients {
    confirmed: Records,
    unconfirmed: Records,
    /// How many numbers of each slot were given out.
    given: [u32; SLOTS as usize],
    /// The confirm value that was given out last; 0 before the first.
    last_confirm: u64,
}

impl Model for Clients {
    ghost use Rattle.nfs_owners.specs.ClientRoom.{RoomyClients};
    ghost use Rattle.nfs_owners.specs.Registry.{AreRecords};

    ghost Value = { RoomyClients };

    ghost view = { λ c. record {
      registry = record {
        confirmed = c.confirmed.records;
        unconfirmed = c.unconfirmed.records;
        given = c.given;
        last_confirm = c.last_confirm;
      };
      confirmed_room = c.confirmed.room;
      unconfirmed_room = c.unconfirmed.room;
    } };

    ghost invariant = { λ c. AreRecords (record {
      confirmed = c.confirmed.records;
      unconfirmed = c.unconfirmed.records;
      given = c.given;
      last_confirm = c.last_confirm;
    }) };
}

impl Clients {
    ghost use Rattle.nfs_owners.specs.Choice.{IsNextNumber, has_number_left, without_unconfirmed_of};
    ghost use Rattle.nfs_owners.specs.ClientChange.{with_change, with_newcomer};
    ghost use Rattle.nfs_owners.specs.ClientRoom.{FitsRecords, HasNumbersFor, HasRoomFor};
    ghost use Rattle.nfs_owners.specs.LiveClients.{IsNextLive, replaced_by, unconfirmed_of_client};
    ghost use Rattle.nfs_owners.specs.Registry.{AreRecords, client_seen, confirmed_named_by, confirmed_of, is_live, no_clients, record_of, record_state, unconfirmed_named_by, was_given, without_client};
    ghost use Rattle.nfs_owners.specs.Slots.{slot_of};

    /// A registry without clients, taking no memory.
    pub fn new(alloc: Global, ids: IdSeed) -> Clients
        ensures { result.registry ≡ no_clients }
    {
        Clients {
            confirmed: Records::new(alloc, ids),
            unconfirmed: Records::new(alloc, ids),
            given: [0; SLOTS as usize],
            last_confirm: 0,
        }
    }

    /// The law of the records: an id has at most one confirmed and one unconfirmed record, and a client number is that
    /// of one id, and the last that was given of its slot.
    pub fn records_are_apart(&self)
        ensures { AreRecords self.now.registry }
    {
        let _ = &self.confirmed;
    }

    /// What the confirmed record with this id has, if there is one.
    pub fn confirmed_of(&self, id: &[u8]) -> Option<&ClientState>
        ensures { option_copied result ≡ record_state (confirmed_of self.now.registry id.now) }
    {
        state_of(self.confirmed.of_id(id))
    }

    /// What the confirmed record with this clientid has, if there is one.
    pub fn of(&self, client: ClientId) -> Option<&ClientState>
        ensures { option_copied result ≡ record_state (record_of client self.now.registry) }
    {
        let record = self.confirmed.of_client(client.number)?;
        if record.state.client == client {
            Some(&record.state)
        } else {
            None
        }
    }

    /// Whether the client with this number has a confirmed record.
    pub fn live(&self, number: u32) -> bool
        ensures { result ≡ is_live number self.now.registry }
    {
        self.confirmed.of_client(number).is_some()
    }

    /// How many clients are live: each has one confirmed record.
    pub fn count_live(&self) -> usize
        ensures { result ≡ length self.now.registry.confirmed }
    {
        self.confirmed.len()
    }

    /// The least number above this one that a live client has, if there is one.
    pub fn next_live(&self, after: u32) -> Option<u32>
        ensures { IsNextLive after self.now.registry result }
    {
        self.confirmed.next_client(after, |_| true)
    }

    /// The number of the live client that the client with this number replaces once it is confirmed: another one, of
    /// the id that this number's unconfirmed record has.
    pub fn replaced_by(&self, number: u32) -> Option<u32>
        ensures { result ≡ replaced_by number self.now.registry }
    {
        let record = self.unconfirmed_of_client(number)?;
        let old = self.confirmed_of(record.id)?;
        (old.client.number != number).then_some(old.client.number)
    }

    // The unconfirmed record of the client with this number, if there is one.
    fn unconfirmed_of_client(&self, number: u32) -> Option<ClientRef<'_>>
        ensures { option_map client_seen result ≡ unconfirmed_of_client number self.now.registry }
    {
        lent(self.unconfirmed.of_client(number))
    }

    /// Whether a client was given this number.
    pub fn was_given(&self, number: u32) -> bool
        ensures { result ≡ was_given number self.now.registry }
    {
        let slot = slot_of(number);
        slot > 0 && generation_of(number) < self.given[slot as usize]
    }

    /// The unconfirmed record that the arguments of SETCLIENTID_CONFIRM name, if there is one.
    pub fn unconfirmed_named_by(&self, args: &SetclientidConfirm) -> Option<ClientRef<'_>>
        ensures { option_map client_seen result
            ≡ unconfirmed_named_by args.now self.now.registry }
    {
        lent(named_by(&self.unconfirmed, args))
    }

    /// What the confirmed record has that the arguments of SETCLIENTID_CONFIRM name, if there is one.
    pub fn confirmed_named_by(&self, args: &SetclientidConfirm) -> Option<&ClientState>
        ensures { option_copied result
            ≡ record_state (confirmed_named_by args.now self.now.registry) }
    {
        state_of(named_by(&self.confirmed, args))
    }

    /// Removes all records of the client with this number, also an unconfirmed one.
    pub fn remove(&mut self, number: u32)
        ensures registry { self.new.registry ≡ without_client number self.old.registry }
        ensures room { (self.old.confirmed_room ≤ self.new.confirmed_room)
            × (self.old.unconfirmed_room ≤ self.new.unconfirmed_room) }
    {
        self.confirmed.remove_client(number);
        self.unconfirmed.remove_client(number);
    }

    /// Makes room for the change.
    pub fn make_room(&mut self, change: &ClientChange) -> Result<(), AllocError>
        ensures same { self.new.registry ≡ self.old.registry }
        ensures room { OnOk result (HasRoomFor change.now self.new) }
        ensures ready { HasRoomFor change.now self.old → IsOk result }
    {
        match change {
            ClientChange::Nothing => Ok(()),
            ClientChange::Arrives(_) | ClientChange::Updates(_) => self.unconfirmed.reserve(),
            ClientChange::Confirms(_) | ClientChange::Refreshes(_) | ClientChange::Replaces(_, _) =>
                self.confirmed.reserve(),
        }
    }

    /// Makes the change, for which there has to be room. It takes no memory.
    pub fn commit(&mut self, change: ClientChange)
        requires room { HasRoomFor change self.old }
        requires numbers { HasNumbersFor change self.old.registry }
        requires fits { FitsRecords change self.old.registry }
        ensures { self.new.registry ≡ with_change change self.old.registry }
    {
        match change {
            ClientChange::Nothing => {}
            ClientChange::Arrives(record) => self.add_newcomer(record),
            ClientChange::Updates(record) => {
                self.last_confirm += 1;
                self.unconfirmed.put(record);
            }
            ClientChange::Confirms(record)
            | ClientChange::Refreshes(record)
            | ClientChange::Replaces(record, _) => {
                let number = record.state.client.number;
                self.unconfirmed.remove_id(record.id.as_slice(), number);
                self.confirmed.put(record);
            }
        }
    }

    // Adds the record of a newcomer, whose number is then given. An unconfirmed record of its slot gives way.
    fn add_newcomer(&mut self, newcomer: ClientRecord)
        requires room { 0 < self.old.unconfirmed_room }
        requires left { IsTrue (has_number_left self.old.registry
            (slot_of newcomer.state.client.number)) }
        requires confirm { self.old.registry.last_confirm < 2 ^ 64 - 1 }
        requires next { IsNextNumber newcomer.state.client.number self.old.registry }
        ensures { self.new.registry ≡ with_newcomer newcomer self.old.registry }
    {
        let number = newcomer.state.client.number;
        self.vacate(number);
        self.given[slot_of(number) as usize] += 1;
        self.last_confirm += 1;
        self.unconfirmed.put(newcomer);
    }

    // Removes the unconfirmed record of the slot whose next number this is, if there is one. It has the slot's last
    // number.
    fn vacate(&mut self, next: u32)
        requires { IsNextNumber next self.old.registry }
        ensures registry { self.new.registry
            ≡ without_unconfirmed_of (slot_of next) self.old.registry }
        ensures room { self.new.unconfirmed_room ≡ self.old.unconfirmed_room }
    {
        if let Some(last) = next.checked_sub(SLOTS) {
            self.unconfirmed.remove_client(last);
        }
    }
}

// What the record has besides its id, if there is a record.
fn state_of(found: Option<&ClientRecord>) -> Option<&ClientState>
    ensures { option_copied result ≡ record_state (option_copied found.entry) }
{
    match found {
        Some(record) => Some(&record.state),
        None => None,
    }
}

// The record, lent, if there is one.
fn lent(found: Option<&ClientRecord>) -> Option<ClientRef<'_>>
    ensures { option_map client_seen result ≡ option_copied found.entry }
{
    match found {
        Some(record) => Some(record.as_ref()),
        None => None,
    }
}

// The record that the arguments of SETCLIENTID_CONFIRM name, if there is one.
fn named_by<'a>(records: &'a Records, args: &SetclientidConfirm) -> Option<&'a ClientRecord>
    ensures { option_copied result ≡ find (is_named_by args.now) records.now.records }
{
    let record = records.of_client(args.client.number)?;
    if record.is_named_by(args) {
        Some(record)
    } else {
        None
    }
}
