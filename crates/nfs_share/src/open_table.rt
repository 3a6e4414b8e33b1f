//! The opens of one file, with counts of what they do and deny together.

ghost use Rattle.std.specs.Prelude.{◌≡◌, ◌≤◌, ◌<◌, ◌+◌, ◌^◌, [], ◌∷◌, ◌++◌, IfNone, IsOk, List, None, OnErr, OnOk, OnSome, length, map, option_map};
ghost use Rattle.std.specs.List.{list_any};
ghost use Rattle.std.specs.Option.{option_copied};
ghost use Rattle.nfs_share.specs.Delegations.{bars};
ghost use Rattle.nfs_share.specs.KeptOpens.{bars_reading, mark_in, opens_kept};
ghost use Rattle.nfs_share.specs.Opens.{IsAbove, after_downgrade, after_open, is_denied, is_numbered, is_of, is_of_client, is_refused, next_stateid_of, open_named_by, open_of, open_with_number, owner_named, share_of, stateid_of, with_each, with_next_seqid, without};
ghost use Rattle.nfs_share.specs.ShareCounts.{counts_of};
ghost use Rattle.nfs_share.specs.Shares.{union_of};
ghost use Rattle.nfs_share.specs.Tally.{IsTally, Mark, mark_of, room_of};
ghost use Rattle.nfs_share.specs.declared.share.Share.{Share};

use crate::changes::{advance_in, downgrade_in, join_in};
use crate::owner_hash::{hash_of_name, hash_of_owner};
use crate::share_counts::ShareCounts;
use crate::tally::Tally;
use crate::{DelegationKind, Modes, OpenState, Share};
use nfs_forms::{ClientId, OpenOwner, Stateid};
use nfs_rows::{OwnerSeed, Rows};
use std::alloc::{AllocError, Global};
use std::marker::Model;

/// The opens of a file, found by number and by owner, with what they do and deny together, and what each client has.
#[derive(Drop)]
pub struct OpenTable {
    rows: Rows<OpenState>,
    // What the opens do, and what they deny.
    counts: ShareCounts,
    // Each client's opens; those are marked that are in a read delegation's way.
    of_client: Tally,
    // The seed of the hashes of the owners.
    names: OwnerSeed,
    // How many additions were promised to take no memory.
    room: usize,
}

impl Model for OpenTable {
    ghost use Rattle.nfs_share.specs.KeptOpens.{IsTable, RoomyOpens, opens_kept};

    ghost Value = { RoomyOpens };

    ghost view = { λ t. record { opens = opens_kept t.rows.rows; room = t.room } };

    ghost invariant = { λ t. IsTable t.names t.rows t.counts t.of_client t.room };
}

impl OpenTable {
    /// No opens, taking no memory. Owners are found by hashes with this seed.
    pub fn new(alloc: Global, names: OwnerSeed) -> OpenTable
        ensures { result.opens ≡ [] }
    {
        OpenTable {
            rows: Rows::new(alloc),
            counts: ShareCounts::new(),
            of_client: Tally::new(alloc),
            names,
            room: 0,
        }
    }

    /// How many opens there are.
    pub fn len(&self) -> usize
        ensures { result ≡ length self.now.opens }
    {
        self.rows.len()
    }

    /// The open whose stateid has this number, if there is one.
    pub fn find(&self, number: u32) -> Option<&OpenState>
        ensures { option_copied result ≡ open_with_number number self.now.opens }
    {
        self.rows.find(u64::from(number))
    }

    /// The open that the stateid names, no matter its seqid, if there is one.
    pub fn named_by(&self, stateid: Stateid) -> Option<&OpenState>
        ensures { option_copied result ≡ open_named_by stateid self.now.opens }
    {
        let open = self.rows.find(u64::from(stateid.number))?;
        if open.is_of_client(stateid.client) {
            Some(open)
        } else {
            None
        }
    }

    /// The open of this owner, if there is one.
    pub fn open_of(&self, owner: &OpenOwner) -> Option<&OpenState>
        ensures { option_copied result ≡ open_of owner.now self.now.opens }
    {
        // A hash costs more than this look.
        if self.rows.is_empty() {
            return None;
        }
        let hash = hash_of_owner(self.names, owner);
        match self.rows.find_named(hash, |open| open.is_of(owner)) {
            Some((_, open)) => Some(open),
            None => None,
        }
    }

    /// Whether the owner with this name at this client has an open.
    pub fn has_owner(&self, client: ClientId, name: &[u8]) -> bool
        ensures { result ≡ list_any (is_of (owner_named client name.now)) self.now.opens }
    {
        // A hash costs more than this look.
        if self.rows.is_empty() {
            return false;
        }
        let hash = hash_of_name(self.names, client, name);
        self.rows
            .find_named(hash, |open| open.is_of_name(client, name))
            .is_some()
    }

    /// How many opens there are of other owners.
    pub fn count_without(&self, owner: &OpenOwner) -> usize
        ensures { result ≡ length (without (is_of owner.now) self.now.opens) }
    {
        match self.open_of(owner) {
            Some(_) => self.rows.len() - 1,
            None => self.rows.len(),
        }
    }

    /// Whether an open denies one of these modes.
    pub fn denies(&self, modes: Modes) -> bool
        ensures { result ≡ is_denied modes self.now.opens }
    {
        self.counts.union().deny.meets(modes)
    }

    /// Whether an open of another owner conflicts with the share.
    pub fn refuses(&self, owner: &OpenOwner, share: Share) -> bool
        ensures { result ≡ is_refused owner.now share self.now.opens }
    {
        // No conflict with all of them means none with some; and a hash costs more than this look.
        if !share.conflicts_with(self.counts.union()) {
            return false;
        }
        share.conflicts_with(self.share_of_others(owner))
    }

    // All that opens of other owners do and deny.
    fn share_of_others(&self, owner: &OpenOwner) -> Share
        ensures { result ≡ union_of (map share_of (without (is_of owner.now) self.now.opens)) }
    {
        match self.open_of(owner) {
            Some(open) => self.counts.less(open.share()).union(),
            None => self.counts.union(),
        }
    }

    /// Whether an owner of this client has an open.
    pub fn has_client(&self, client: ClientId) -> bool
        ensures { result ≡ list_any (is_of_client client) self.now.opens }
    {
        self.of_client.own(client).all > 0
    }

    /// Whether a delegation of this kind to the client would be in the way of an open of another client.
    pub fn bars(&self, client: ClientId, kind: DelegationKind) -> bool
        ensures { result ≡ bars client kind self.now.opens }
    {
        let others = self.of_client.others(client);
        match kind {
            DelegationKind::Read => others.marked > 0,
            DelegationKind::Write => others.all > 0,
        }
    }

    /// Makes room, so that the next open takes no memory.
    pub fn reserve(&mut self) -> Result<(), AllocError>
        ensures opens { self.new.opens ≡ self.old.opens }
        ensures room { OnOk result (0 < self.new.room) }
        ensures grows { self.old.room ≤ self.new.room }
        ensures ready { 0 < self.old.room → IsOk result }
        ensures err { OnErr result (self.new ≡ self.old) }
    {
        if self.room > 0 {
            return Ok(());
        }
        self.of_client.reserve()?;
        self.rows.reserve()?;
        self.room = 1;
        Ok(())
    }

    /// Adds the open, for which there has to be room, of an owner who has none.
    pub fn add(&mut self, newcomer: OpenState)
        requires room { 0 < self.old.room }
        requires newest { IsAbove newcomer.number self.old.opens }
        requires none { None ≡ open_of newcomer.owner self.old.opens }
        ensures opens { self.new.opens ≡ self.old.opens ++ newcomer ∷ [] }
        ensures room { self.old.room ≤ self.new.room + 1 }
    {
        let (client, share) = (newcomer.owner.client, newcomer.share());
        let hash = hash_of_owner(self.names, &newcomer.owner);
        self.rows
            .add(u64::from(newcomer.number), hash, client.number, newcomer);
        // There are fewer opens than numbers of this size.
        let _count = self.rows.len();
        self.counts = self.counts.plus(share);
        self.of_client.add(client, bars_reading(share));
        self.room -= 1;
    }

    /// Adds the share to the owner's open, if there is one, and returns the open's stateid.
    pub fn join(&mut self, owner: &OpenOwner, share: Share) -> Option<Stateid>
        ensures some { OnSome result (self.new ≡ record self.old {
          opens = with_each (is_of owner.now) (after_open share) self.old.opens;
        }) }
        ensures stateid { result ≡ option_map next_stateid_of (open_of owner.now self.old.opens) }
        ensures none { IfNone result (self.new ≡ self.old) }
    {
        let open = self.open_of(owner)?;
        let (number, before, stateid) = (open.number, open.share(), open.next_stateid());
        let _count = self.rows.len();
        let after = join_in(&mut self.rows, number, share)?;
        recount(
            &mut self.counts,
            &mut self.of_client,
            owner.client,
            before,
            after,
        );
        Some(stateid)
    }

    /// Gives the open with this number its next seqid, if there is one.
    pub fn advance(&mut self, number: u32)
        ensures { self.new ≡ record self.old {
          opens = with_each (is_numbered number) with_next_seqid self.old.opens;
        } }
    {
        advance_in(&mut self.rows, number);
    }

    /// Keeps of the open with this number the shares that this share contains, if there is one.
    pub fn keep_within(&mut self, number: u32, share: Share)
        ensures { self.new ≡ record self.old {
          opens = with_each (is_numbered number) (after_downgrade share) self.old.opens;
        } }
    {
        let Some(open) = self.find(number) else {
            return
        };
        let (client, before) = (open.owner.client, open.share());
        let _count = self.rows.len();
        let Some(after) = downgrade_in(&mut self.rows, number, share) else {
            return
        };
        recount(&mut self.counts, &mut self.of_client, client, before, after);
    }

    /// Removes the open with this number, if there is one.
    pub fn close(&mut self, number: u32)
        ensures opens { self.new.opens ≡ without (is_numbered number) self.old.opens }
        ensures room { self.old.room ≤ self.new.room }
    {
        if let Some(open) = self.rows.remove(u64::from(number)) {
            let share = open.share();
            self.counts = self.counts.less(share);
            self.of_client
                .remove(open.owner.client, bars_reading(share));
        }
    }

    /// Removes the open of this owner.
    pub fn remove_owner(&mut self, owner: &OpenOwner)
        ensures opens { self.new.opens ≡ without (is_of owner.now) self.old.opens }
        ensures room { self.old.room ≤ self.new.room }
    {
        let _names = self.names;
        let Some(open) = self.open_of(owner) else {
            return
        };
        let number = open.number;
        self.close(number);
    }

    /// Removes the opens of all owners of this client. Where it has some, it looks at each of the opens that stay.
    pub fn remove_client(&mut self, client: ClientId)
        ensures opens { self.new.opens ≡ without (is_of_client client) self.old.opens }
        ensures room { self.old.room ≤ self.new.room }
    {
        if !self.has_client(client) {
            return;
        }
        self.rows
            .remove_of_client(client.number, |open| open.is_of_client(client));
        self.counts = counts_in(&self.rows);
        self.of_client.remove_client(client);
    }
}

// Whether a read delegation would be in the way of an open with this share.
fn bars_reading(share: Share) -> bool
    ensures { result ≡ bars_reading share }
{
    share.access.write || share.deny.read
}

// The client has an open with the share after, in place of one with the share before.
fn recount(
    counts: &mut ShareCounts,
    of_client: &mut Tally,
    client: ClientId,
    before: Share,
    after: Share,
)
    ensures counts { (shares : List Share) → counts.old ≡ counts_of (before ∷ shares)
        → length shares + 1 < 2 ^ 64 → counts.new ≡ counts_of (after ∷ shares) }
    ensures tally { (marks : List Mark)
        → IsTally of_client.old (mark_of client (bars_reading before) ∷ marks)
        → length marks + 1 < 2 ^ 64
        → IsTally of_client.new (mark_of client (bars_reading after) ∷ marks) }
    ensures room { room_of of_client.old ≤ room_of of_client.new }
{
    *counts = counts.less(before).plus(after);
    of_client.mark(client, bars_reading(before), bars_reading(after));
}

// The counts of the opens in these rows.
fn counts_in(rows: &Rows<OpenState>) -> ShareCounts
    ensures { result ≡ counts_of (map share_of (opens_kept rows.now.rows)) }
{
    let _count = rows.len();
    let mut counts = ShareCounts::new();
    let mut left = rows.iter();
    while let Some((_, open)) = left.next() {
        counts = counts.plus(open.share());
    }
    counts
}
