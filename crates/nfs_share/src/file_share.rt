//! The opens and delegations of one file, as OPEN, OPEN_DOWNGRADE, CLOSE and DELEGRETURN change them.

ghost use Rattle.std.specs.Prelude.{◌≡◌, ◌≤◌, ◌<◌, ◌+◌, IsOk, OnErr, OnOk, Some, find, length, nat_le, [], ◌∷◌, ◌++◌, option_map};
ghost use Rattle.std.specs.List.{list_any};
ghost use Rattle.std.specs.Option.{option_copied};
ghost use Rattle.nfs_share.specs.Delegations.{IsAboveLent, IsNextDueOf, bars, can_delegate, delegation_named_by, delegation_stateid, delegation_with_number, first_delegation, has_conflict, has_delegation, is_delegation_numbered, is_lent_to, with_recalls, without_lent};
ghost use Rattle.nfs_share.specs.Opens.{IsNewestFor, with_next_seqid, after_downgrade, is_denied, is_numbered, is_of, is_of_client, is_refused, is_stateid_of, open_named_by, open_with_number, open_of, owner_named, stateid_of, with_each, with_opening, without};

use crate::delegation_table::DelegationTable;
use crate::open_table::OpenTable;
use crate::{Delegation, DelegationKind, FileUse, Modes, OpenState, Share};
use nfs_forms::{ClientId, Moment, OpenOwner, Stateid};
use nfs_rows::OwnerSeed;
use std::alloc::{AllocError, Global};
use std::marker::Model;

/// The opens of a file, each of which keeps others out by its share reservation (RFC 7530, section 9.9), and its
/// delegations, of each of which other clients have to wait for the return (section 10.4). A second OPEN of an owner
/// joins the open that the owner has.
#[derive(Drop)]
pub struct FileShare {
    opens: OpenTable,
    pub(crate) delegations: DelegationTable,
}

impl Model for FileShare {
    ghost use Rattle.nfs_share.specs.Opens.{FileOpens};

    ghost Value = { FileOpens };

    ghost view = { λ f. record {
      opens = f.opens.opens;
      delegations = f.delegations.delegations;
      room = f.opens.room;
      lending_room = f.delegations.room;
    } };
}

impl FileShare {
    /// A file without opens and delegations, taking no memory. Owners are found by hashes with this seed.
    pub fn new(alloc: Global, names: OwnerSeed) -> FileShare
        ensures opens { result.opens ≡ [] }
        ensures delegations { result.delegations ≡ [] }
    {
        FileShare {
            opens: OpenTable::new(alloc, names),
            delegations: DelegationTable::new(alloc),
        }
    }

    /// How many opens there are.
    pub fn len(&self) -> usize
        ensures { result ≡ length self.now.opens }
    {
        self.opens.len()
    }

    /// The open whose stateid has this number, if there is one.
    pub fn find(&self, number: u32) -> Option<&OpenState>
        ensures { option_copied result ≡ open_with_number number self.now.opens }
    {
        self.opens.find(number)
    }

    /// The open that the stateid names, no matter its seqid, if there is one.
    pub fn named_by(&self, stateid: Stateid) -> Option<&OpenState>
        ensures { option_copied result ≡ open_named_by stateid self.now.opens }
    {
        self.opens.named_by(stateid)
    }

    /// Whether the stateid names an open.
    pub fn names(&self, stateid: Stateid) -> bool
        ensures { result ≡ list_any (is_stateid_of stateid) self.now.opens }
    {
        self.named_by(stateid).is_some()
    }

    /// The open of this owner, if there is one.
    pub fn open_of(&self, owner: &OpenOwner) -> Option<&OpenState>
        ensures { option_copied result ≡ open_of owner.now self.now.opens }
    {
        self.opens.open_of(owner)
    }

    /// Whether an open denies one of these modes.
    pub fn denies(&self, modes: Modes) -> bool
        ensures { result ≡ is_denied modes self.now.opens }
    {
        self.opens.denies(modes)
    }

    /// Whether an open of another owner conflicts with the share.
    pub fn refuses(&self, owner: &OpenOwner, share: Share) -> bool
        ensures { result ≡ is_refused owner.now share self.now.opens }
    {
        self.opens.refuses(owner, share)
    }

    /// Whether an owner of this client has an open.
    pub fn has_client(&self, client: ClientId) -> bool
        ensures { result ≡ list_any (is_of_client client) self.now.opens }
    {
        self.opens.has_client(client)
    }

    /// Whether the owner with this name at this client has an open.
    pub fn has_owner(&self, client: ClientId, name: &[u8]) -> bool
        ensures { result ≡ list_any (is_of (owner_named client name.now)) self.now.opens }
    {
        self.opens.has_owner(client, name)
    }

    /// How many opens there are of other owners.
    pub fn count_without(&self, owner: &OpenOwner) -> usize
        ensures { result ≡ length (without (is_of owner.now) self.now.opens) }
    {
        self.opens.count_without(owner)
    }

    /// Makes room, so that the next change takes no memory.
    pub fn reserve(&mut self) -> Result<(), AllocError>
        ensures opens { self.new.opens ≡ self.old.opens }
        ensures delegations { self.new.delegations ≡ self.old.delegations }
        ensures room { OnOk result (0 < self.new.room) }
        ensures grows { self.old.room ≤ self.new.room }
        ensures lending { self.old.lending_room ≤ self.new.lending_room }
        ensures ready { 0 < self.old.room → IsOk result }
        ensures err { OnErr result (self.new ≡ self.old) }
    {
        self.opens.reserve()
    }

    /// OPEN, no matter what others deny or hold: as `try_open`, where there is room for an open that is made. It takes
    /// no memory.
    pub fn grant(&mut self, owner: OpenOwner, share: Share, number: u32) -> Stateid
        requires room { open_of owner self.old.opens ≡ None → 0 < self.old.room }
        requires newest { IsNewestFor owner number self.old.opens }
        ensures opens { self.new.opens ≡ with_opening owner share number self.old.opens }
        ensures delegations { self.new.delegations ≡ self.old.delegations }
        ensures stateid { option_map stateid_of (open_of owner self.new.opens) ≡ Some result }
        ensures room { self.old.room ≤ self.new.room + 1 }
        ensures lending { self.old.lending_room ≤ self.new.lending_room }
    {
        if let Some(stateid) = self.opens.join(&owner, share) {
            return stateid;
        }
        let newcomer = OpenState::new(owner, share, number);
        let stateid = newcomer.stateid();
        self.opens.add(newcomer);
        stateid
    }

    /// OPEN_CONFIRM (RFC 7530, section 16.18): gives the open with this number its next seqid, if there is one.
    pub fn advance(&mut self, number: u32)
        ensures { self.new ≡ record self.old {
          opens = with_each (is_numbered number) with_next_seqid self.old.opens;
        } }
    {
        self.opens.advance(number);
    }

    /// OPEN_DOWNGRADE, no matter whether it is allowed: keeps of the open with this number the shares that this share
    /// contains.
    pub fn keep_within(&mut self, number: u32, share: Share)
        ensures { self.new ≡ record self.old {
          opens = with_each (is_numbered number) (after_downgrade share) self.old.opens;
        } }
    {
        self.opens.keep_within(number, share);
    }

    /// CLOSE (RFC 7530, section 16.2): removes the open with this number, if there is one.
    pub fn close(&mut self, number: u32)
        ensures opens { self.new.opens ≡ without (is_numbered number) self.old.opens }
        ensures delegations { self.new.delegations ≡ self.old.delegations }
        ensures room { self.old.room ≤ self.new.room }
        ensures lending { self.old.lending_room ≤ self.new.lending_room }
    {
        self.opens.close(number);
    }

    /// Removes the open of this owner.
    pub fn remove_owner(&mut self, owner: &OpenOwner)
        ensures opens { self.new.opens ≡ without (is_of owner.now) self.old.opens }
        ensures delegations { self.new.delegations ≡ self.old.delegations }
        ensures room { self.old.room ≤ self.new.room }
        ensures lending { self.old.lending_room ≤ self.new.lending_room }
    {
        self.opens.remove_owner(owner);
    }

    /// Removes the opens of all owners of this client, and its delegation.
    pub fn remove_client(&mut self, client: ClientId)
        ensures opens { self.new.opens ≡ without (is_of_client client) self.old.opens }
        ensures delegations { self.new.delegations
            ≡ without_lent (is_lent_to client) self.old.delegations }
        ensures room { self.old.room ≤ self.new.room }
        ensures lending { self.old.lending_room ≤ self.new.lending_room }
    {
        self.opens.remove_client(client);
        self.delegations.remove_client(client);
    }

    /// The delegations, in the order in which they came.
    pub fn delegations(&self) -> &[Delegation]
        ensures { result.now ≡ self.now.delegations }
    {
        self.delegations.as_slice()
    }

    /// The delegation that the stateid names, no matter its seqid, if there is one.
    pub fn delegation_named_by(&self, stateid: Stateid) -> Option<Delegation>
        ensures { result ≡ delegation_named_by stateid self.now.delegations }
    {
        self.delegation_named(stateid).copied()
    }

    /// The delegation that the stateid names, no matter its seqid, if there is one, where it is kept.
    pub fn delegation_named(&self, stateid: Stateid) -> Option<&Delegation>
        ensures { option_copied result ≡ delegation_named_by stateid self.now.delegations }
    {
        self.delegations.named_by(stateid)
    }

    /// The delegation with this number, if there is one.
    pub fn delegation_with_number(&self, number: u32) -> Option<Delegation>
        ensures { result ≡ delegation_with_number number self.now.delegations }
    {
        self.delegations.numbered(number)
    }

    /// Whether the client has a delegation.
    pub fn has_delegation(&self, client: ClientId) -> bool
        ensures { result ≡ has_delegation client self.now.delegations }
    {
        self.delegations.has_client(client)
    }

    /// Whether a delegation is in the way of this use of the file.
    pub fn conflicts(&self, file_use: FileUse) -> bool
        ensures { result ≡ has_conflict file_use self.now.delegations }
    {
        self.delegations.conflicts(file_use)
    }

    /// Whether a delegation of this kind to the client would be in the way of an open of another client.
    pub fn bars(&self, client: ClientId, kind: DelegationKind) -> bool
        ensures { result ≡ bars client kind self.now.opens }
    {
        self.opens.bars(client, kind)
    }

    /// Whether a delegation of this kind to the client is in no open's way, no delegation of another client is in its
    /// way, and the client has none.
    pub fn can_delegate(&self, client: ClientId, kind: DelegationKind) -> bool
        ensures { result ≡ can_delegate client kind self.now.opens self.now.delegations }
    {
        !self.bars(client, kind)
            && !self.has_delegation(client)
            && !self.conflicts(FileUse::Delegation(client, kind))
    }

    /// Of the delegations that are due, the one with the least number, if there is one.
    pub fn next_due(&self, lease: u32, now: Moment) -> Option<Delegation>
        ensures { IsNextDueOf lease now self.now.delegations result }
    {
        self.delegations.next_due(lease, now)
    }

    /// Makes room for a delegation, so that the next one takes no memory.
    pub fn reserve_delegation(&mut self) -> Result<(), AllocError>
        ensures opens { self.new.opens ≡ self.old.opens }
        ensures delegations { self.new.delegations ≡ self.old.delegations }
        ensures room { OnOk result (0 < self.new.lending_room) }
        ensures grows { self.old.lending_room ≤ self.new.lending_room }
        ensures opening { self.old.room ≤ self.new.room }
        ensures ready { 0 < self.old.lending_room → IsOk result }
        ensures err { OnErr result (self.new ≡ self.old) }
    {
        self.delegations.reserve()
    }

    /// Lends the client a delegation, no matter what others do with the file: as `delegate`, where there is room. It
    /// takes no memory.
    pub fn lend(&mut self, client: ClientId, kind: DelegationKind, number: u32) -> Stateid
        requires room { 0 < self.old.lending_room }
        requires newest { IsAboveLent number self.old.delegations }
        ensures delegations { self.new.delegations
            ≡ self.old.delegations ++ first_delegation client kind number ∷ [] }
        ensures stateid { result ≡ delegation_stateid (first_delegation client kind number) }
        ensures opens { self.new.opens ≡ self.old.opens }
        ensures room { self.old.lending_room ≤ self.new.lending_room + 1 }
        ensures opening { self.old.room ≤ self.new.room }
    {
        self.delegations.lend(client, kind, number);
        Delegation::new(client, kind, number).stateid()
    }

    /// Calls back the delegations that are in the way of this use of the file: those that weren't called back before
    /// have this moment from now on.
    pub fn recall(&mut self, file_use: FileUse, moment: Moment)
        ensures { self.new ≡ record self.old {
          delegations = with_recalls file_use moment self.old.delegations;
        } }
    {
        self.delegations.recall(file_use, moment);
    }

    /// DELEGRETURN (RFC 7530, section 16.6): removes the delegation with this number, if there is one.
    pub fn give_back(&mut self, number: u32)
        ensures delegations { self.new.delegations
            ≡ without_lent (is_delegation_numbered number) self.old.delegations }
        ensures opens { self.new.opens ≡ self.old.opens }
        ensures room { self.old.lending_room ≤ self.new.lending_room }
        ensures opening { self.old.room ≤ self.new.room }
    {
        self.delegations.give_back(number);
    }
}
