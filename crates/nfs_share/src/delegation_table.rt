//! The delegations of one file, with counts that answer most questions without a walk.

ghost use Rattle.std.specs.Prelude.{◌≡◌, ◌≤◌, ◌<◌, ◌+◌, [], ◌∷◌, ◌++◌, ◌&&◌, IfOk, IsFalse, IsOk, OnErr, OnOk, filter, find, length, nat_le, nat_lt, not, true, false};
ghost use Rattle.std.specs.Option.{option_copied};
ghost use Rattle.std.specs.List.Sorted.{IsPartitionPoint};
ghost use Rattle.nfs_share.specs.Delegations.{IsAboveLent, StandInOrder, IsNextDueOf, conflicts, delegation_named_by, delegation_with_number, first_delegation, has_conflict, has_delegation, is_delegation_numbered, is_due, is_lent_to, is_of_user, lesser, with_recalls, without_lent};
ghost use Rattle.nfs_share.specs.KeptDelegations.{AreNotBefore, is_writing};
ghost use Rattle.nfs_share.specs.ShareCounts.{how_many};

use crate::changes::recall_each;
use crate::count::Count;
use crate::delegation::is_lease_before;
use crate::tally::Tally;
use crate::{Delegation, DelegationKind, FileUse};
use nfs_forms::{ClientId, Moment, Stateid};
use std::alloc::{AllocError, Global};
use std::marker::Model;

/// The delegations of a file in the order in which they came, with what each client has of them, and a moment before
/// which none was called back.
#[derive(Drop)]
pub struct DelegationTable {
    // In the order of their numbers.
    lent: Vec<Delegation>,
    // Each client's delegations; those for writing are marked.
    holders: Tally,
    // None of these was called back before this moment; or none was called back at all.
    first_recall: Option<Moment>,
    // How many additions were promised to take no memory.
    room: usize,
}

impl Model for DelegationTable {
    ghost use Rattle.nfs_share.specs.KeptDelegations.{AreLent, RoomyDelegations};

    ghost Value = { RoomyDelegations };

    ghost view = { λ t. record { delegations = t.lent.items; room = t.room } };

    ghost invariant = { λ t. AreLent t.lent t.holders t.first_recall t.room };
}

impl DelegationTable {
    /// No delegations, taking no memory.
    pub fn new(alloc: Global) -> DelegationTable
        ensures { result.delegations ≡ [] }
    {
        DelegationTable {
            lent: Vec::new(alloc),
            holders: Tally::new(alloc),
            first_recall: None,
            room: 0,
        }
    }

    /// The delegations.
    pub fn as_slice(&self) -> &[Delegation]
        ensures { result.now ≡ self.now.delegations }
    {
        self.lent.as_slice()
    }

    /// The delegation with this number, if there is one.
    pub fn numbered(&self, number: u32) -> Option<Delegation>
        ensures { result ≡ delegation_with_number number self.now.delegations }
    {
        self.with_number(number).copied()
    }

    // The delegation with this number, if there is one.
    fn with_number(&self, number: u32) -> Option<&Delegation>
        ensures { option_copied result ≡ delegation_with_number number self.now.delegations }
    {
        // They stand in the order of their numbers.
        let lent = first_from(self.lent.as_slice(), number)?;
        if lent.number == number {
            Some(lent)
        } else {
            None
        }
    }

    /// The delegation that the stateid names, no matter its seqid, if there is one.
    pub fn named_by(&self, stateid: Stateid) -> Option<&Delegation>
        ensures { option_copied result ≡ delegation_named_by stateid self.now.delegations }
    {
        let _lent = &self.lent;
        let lent = self.with_number(stateid.number)?;
        if lent.is_of_client(stateid.client) {
            Some(lent)
        } else {
            None
        }
    }

    /// Whether the client has a delegation.
    pub fn has_client(&self, client: ClientId) -> bool
        ensures { result ≡ has_delegation client self.now.delegations }
    {
        self.holders.own(client).all > 0
    }

    /// Whether a delegation is in the way of this use of the file.
    pub fn conflicts(&self, file_use: FileUse) -> bool
        ensures { result ≡ has_conflict file_use self.now.delegations }
    {
        let others = self.others(file_use);
        if DelegationKind::Read.is_in_way_of(file_use) {
            others.all > 0
        } else {
            others.marked > 0
        }
    }

    // How many aren't those of the client that uses the file so, and how many of these are for writing.
    fn others(&self, file_use: FileUse) -> Count
        ensures all { result.all ≡ how_many (λ d. not (is_of_user file_use d)) self.now.delegations }
        ensures writing { result.marked ≡ how_many (λ d.
            not (is_of_user file_use d) && is_writing d.kind) self.now.delegations }
    {
        match file_use {
            FileUse::Open(client, _) => self.holders.others(client),
            FileUse::Delegation(client, _) => self.holders.others(client),
            FileUse::Special(_) => self.holders.all(),
        }
    }

    /// The delegations that are in the way of this use of the file.
    pub fn conflicting(&self, file_use: FileUse) -> Result<Vec<Delegation>, AllocError>
        ensures ok { IfOk result (λ found. found.items
            ≡ filter (conflicts file_use) self.now.delegations) }
        ensures none { IsFalse (has_conflict file_use self.now.delegations) → IsOk result }
    {
        let mut found = Vec::new(*self.lent.allocator());
        for lent in self.lent.iter() {
            if lent.conflicts(file_use) {
                found.push(*lent)?;
            }
        }
        Ok(found)
    }

    /// Of those that are due, the one with the least number, if there is one.
    pub fn next_due(&self, lease: u32, now: Moment) -> Option<Delegation>
        ensures { IsNextDueOf lease now self.now.delegations result }
    {
        // Where one called back then isn't due, none is.
        if !is_lease_before(self.first_recall, lease, now) {
            return None;
        }
        // They stand in the order of their numbers.
        first_due(self.lent.as_slice(), lease, now)
    }

    /// Makes room, so that the next delegation takes no memory.
    pub fn reserve(&mut self) -> Result<(), AllocError>
        ensures delegations { self.new.delegations ≡ self.old.delegations }
        ensures room { OnOk result (0 < self.new.room) }
        ensures grows { self.old.room ≤ self.new.room }
        ensures ready { 0 < self.old.room → IsOk result }
        ensures err { OnErr result (self.new ≡ self.old) }
    {
        if self.room > 0 {
            return Ok(());
        }
        self.holders.reserve()?;
        self.lent.reserve(1)?;
        self.room = 1;
        Ok(())
    }

    /// Adds a delegation, for which there has to be room, and whose number has to be above those of all.
    pub fn lend(&mut self, client: ClientId, kind: DelegationKind, number: u32)
        requires room { 0 < self.old.room }
        requires newest { IsAboveLent number self.old.delegations }
        ensures delegations { self.new.delegations
            ≡ self.old.delegations ++ first_delegation client kind number ∷ [] }
        ensures room { self.old.room ≤ self.new.room + 1 }
    {
        let lent = Delegation {
            client,
            kind,
            number,
            recalled: None,
        };
        self.lent.push_reserved(lent);
        // There are fewer delegations than numbers of this size.
        let _count = self.lent.len();
        self.holders.add(client, is_writing(kind));
        self.room -= 1;
    }

    /// Recalls the delegations that are in the way of this use of the file.
    pub fn recall(&mut self, file_use: FileUse, moment: Moment)
        ensures { self.new ≡ record self.old {
          delegations = with_recalls file_use moment self.old.delegations;
        } }
    {
        if !self.conflicts(file_use) {
            return;
        }
        recall_each(&mut self.lent, file_use, moment);
        self.first_recall = first_recall_in(self.lent.as_slice());
    }

    /// Removes the delegation with this number, if there is one.
    pub fn give_back(&mut self, number: u32)
        ensures delegations { self.new.delegations
            ≡ without_lent (is_delegation_numbered number) self.old.delegations }
        ensures room { self.old.room ≤ self.new.room }
    {
        let Some(back) = self.numbered(number) else {
            return
        };
        let at = place_from(self.lent.as_slice(), number);
        let _back = self.lent.remove(at);
        self.holders.remove(back.client, is_writing(back.kind));
        self.first_recall = first_recall_left(self.lent.as_slice(), self.first_recall);
    }

    /// Removes the delegations of the client.
    pub fn remove_client(&mut self, client: ClientId)
        ensures delegations { self.new.delegations
            ≡ without_lent (is_lent_to client) self.old.delegations }
        ensures room { self.old.room ≤ self.new.room }
    {
        if !self.has_client(client) {
            return;
        }
        self.lent.retain(|lent| !lent.is_of_client(client));
        self.holders.remove_client(client);
        self.first_recall = first_recall_in(self.lent.as_slice());
    }
}

// Whether a delegation of this kind is for writing.
fn is_writing(kind: DelegationKind) -> bool
    ensures { result ≡ is_writing kind }
{
    match kind {
        DelegationKind::Read => false,
        DelegationKind::Write => true,
    }
}

// The moment at which the first of these was called back, if one was.
fn first_recall_in(delegations: &[Delegation]) -> Option<Moment>
    ensures { AreNotBefore result delegations.now }
{
    let mut first = None;
    for lent in delegations.iter() {
        first = earlier(first, lent.recalled);
    }
    first
}

// The first moment, as it was before some went; or none where these are none.
fn first_recall_left(delegations: &[Delegation], first: Option<Moment>) -> Option<Moment>
    ensures { AreNotBefore first delegations.now → AreNotBefore result delegations.now }
{
    if delegations.is_empty() { None } else { first }
}

// The earlier of two moments, of which there may be none.
fn earlier(first: Option<Moment>, other: Option<Moment>) -> Option<Moment>
    ensures { result ≡ lesser (λ moment. moment) first other }
{
    let Some(other) = other else { return first };
    match first {
        Some(moment) if moment.seconds() <= other.seconds() => Some(moment),
        _ => Some(other),
    }
}

// The first of these delegations that is due, if one is.
fn first_due(delegations: &[Delegation], lease: u32, now: Moment) -> Option<Delegation>
    ensures { result ≡ find (is_due lease now) delegations.now }
{
    delegations
        .iter()
        .copied()
        .find(|lent| lent.is_due(lease, now))
}

// The first of these delegations that has no number below this one, if there is one.
fn first_from(delegations: &[Delegation], number: u32) -> Option<&Delegation>
    requires { StandInOrder delegations.now }
    ensures { option_copied result ≡ find (λ d. nat_le number d.number) delegations.now }
{
    let at = place_from(delegations, number);
    delegations.get(at)
}

// How many of these delegations have a number below this one, by halving.
fn place_from(delegations: &[Delegation], number: u32) -> usize
    requires { StandInOrder delegations.now }
    ensures bound { result ≤ length delegations.now }
    ensures point { IsPartitionPoint (λ d. nat_lt d.number number ≡ true)
        (λ d. nat_lt d.number number ≡ false) delegations.now result }
{
    delegations.partition_point(|lent| lent.number < number)
}
