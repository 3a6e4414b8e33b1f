//! The opens and delegations of all files, found by stateid without a walk over the files.

ghost use Rattle.std.specs.Prelude.{◌≡◌, ◌<◌, ◌-◌, ℕ, [], ◌∷◌, ◌++◌, IfOk, IfSome, IsOk, OnOk, length, map, nat_lt, option_map, position, replicate};
ghost use Rattle.std.specs.List.{list_any};
ghost use Rattle.std.specs.Option.{option_copied};
ghost use Rattle.nfs_share.specs.AllOpens.{HasLendingRoomAt, HasRoomAt, IsAboveAllLent, IsNewestAt, IsNextDue, at_node, delegation_count, delegation_named_in, delegation_numbered_in, delegations_in, delegations_of, lent_at, lesser_at, named_in, open_count, opens_in, opens_of, with_delegations, with_opens};
ghost use Rattle.nfs_share.specs.Delegations.{can_delegate, first_delegation, has_conflict, has_delegation, is_delegation_numbered, is_lent_to, is_stateid_of_delegation, with_recalls, without_lent};
ghost use Rattle.nfs_share.specs.OpenFound.{delegation_ref_seen, delegation_seen, open_seen};
ghost use Rattle.nfs_share.specs.Opens.{after_downgrade, is_denied, is_numbered, is_of, is_of_client, is_refused, is_stateid_of, open_of, open_with_number, owner_named, with_each, with_next_seqid, with_opening, without};

use crate::numbers::{close_in, give_back_in, grant_in};
use crate::{Delegation, DelegationKind, FileShare, FileUse, Modes, OpenState, Share};
use nfs_forms::{ClientId, Moment, OpenOwner, Stateid};
use nfs_nodes::{Nodes, reserve_number};
use nfs_rows::OwnerSeed;
use std::alloc::{AllocError, Global};
use std::marker::Model;

/// The opens and the delegations of all files, by the numbers of their nodes. A node that there isn't has none, and a
/// change of those changes nothing.
#[derive(Drop)]
pub struct Opens {
    files: Vec<FileShare>,
    // The nodes of the opens by their numbers, and of some that there are no more.
    nodes: Nodes,
    // How many opens there are.
    count: usize,
    // The nodes of the delegations by their numbers, and of some that there are no more; and how many delegations there
    // are.
    lent: Nodes,
    lent_count: usize,
}

/// An open, and the node of its file.
#[derive(Clone, Copy)]
pub struct OpenFound<'a> {
    pub node: u32,
    pub state: &'a OpenState,
}

/// A delegation, and the node of its file.
#[derive(Clone, Copy)]
pub struct DelegationFound {
    pub node: u32,
    pub state: Delegation,
}

/// A delegation where it is kept, and the node of its file.
#[derive(Clone, Copy)]
pub struct DelegationRef<'a> {
    pub node: u32,
    pub state: &'a Delegation,
}

impl Model for Opens {
    ghost use Rattle.std.specs.Prelude.{List, map};
    ghost use Rattle.nfs_nodes.specs.Numbers.{AreFound};
    ghost use Rattle.nfs_share.specs.AllOpens.{delegations_in, opens_in};
    ghost use Rattle.nfs_share.specs.OpenNodes.{lent_number, open_number, within_rooms};
    ghost use Rattle.nfs_share.specs.Opens.{FileOpens};

    ghost Value = { List FileOpens };

    ghost view = { λ o. map (within_rooms o.nodes.room o.lent.room) o.files.items };

    ghost invariant = { λ o. AreFound open_number o.nodes o.count (opens_in o.files.items)
        × AreFound lent_number o.lent o.lent_count (delegations_in o.files.items) };
}

impl Opens {
    /// No opens and no delegations of any of these nodes. Owners are found by hashes with this seed.
    pub fn new(alloc: Global, nodes: u32, names: OwnerSeed) -> Result<Opens, AllocError>
        ensures opens { IfOk result (λ opens. opens_in opens ≡ replicate nodes []) }
        ensures delegations { IfOk result (λ opens. delegations_in opens ≡ replicate nodes []) }
    {
        let mut files = Vec::new(alloc);
        files.reserve(nodes as usize)?;
        for _ in 0..nodes {
            files.push_reserved(FileShare::new(alloc, names));
        }
        Ok(Opens {
            files,
            nodes: Nodes::new(alloc),
            count: 0,
            lent: Nodes::new(alloc),
            lent_count: 0,
        })
    }

    /// The open that the stateid names, no matter its seqid, if there is one.
    pub fn find(&self, stateid: Stateid) -> Option<OpenFound<'_>>
        ensures { option_map open_seen result ≡ named_in stateid (opens_in self.now) }
    {
        let node = self.nodes.find(stateid.number)?;
        let file = self.files.get(node as usize)?;
        found_at(node, file.named_by(stateid))
    }

    /// The open that this owner has of the node's file, if there is one.
    pub fn open_of(&self, node: u32, owner: &OpenOwner) -> Option<&OpenState>
        ensures { option_copied result ≡ open_of owner.now (opens_of node (opens_in self.now)) }
    {
        self.files.get(node as usize)?.open_of(owner)
    }

    /// The open of the node's file whose stateid has this number, if there is one.
    pub fn open_numbered(&self, node: u32, number: u32) -> Option<&OpenState>
        ensures { option_copied result
            ≡ open_with_number number (opens_of node (opens_in self.now)) }
    {
        self.files.get(node as usize)?.find(number)
    }

    /// Whether an open of the node's file by another owner conflicts with the share.
    pub fn refuses(&self, node: u32, owner: &OpenOwner, share: Share) -> bool
        ensures { result ≡ is_refused owner.now share (opens_of node (opens_in self.now)) }
    {
        match self.files.get(node as usize) {
            Some(file) => file.refuses(owner, share),
            None => false,
        }
    }

    /// Whether an open of the node's file denies one of these modes.
    pub fn denies(&self, node: u32, modes: Modes) -> bool
        ensures { result ≡ is_denied modes (opens_of node (opens_in self.now)) }
    {
        match self.files.get(node as usize) {
            Some(file) => file.denies(modes),
            None => false,
        }
    }

    /// Whether an owner of the client has an open.
    pub fn has_client(&self, client: ClientId) -> bool
        ensures { result ≡ list_any (list_any (is_of_client client)) (opens_in self.now) }
    {
        has_client_in(&self.files, client)
    }

    /// Whether the owner with this name at this client has an open of any file.
    pub fn has_owner(&self, client: ClientId, name: &[u8]) -> bool
        ensures { result
            ≡ list_any (list_any (is_of (owner_named client name.now))) (opens_in self.now) }
    {
        has_owner_in(&self.files, client, name)
    }

    /// Whether there are fewer opens than this limit.
    pub fn has_place(&self, limit: usize) -> bool
        ensures { result ≡ nat_lt (open_count (opens_in self.now)) limit }
    {
        self.count < limit
    }

    /// Whether there are fewer opens of other owners than this limit.
    pub fn has_place_without(&self, owner: &OpenOwner, limit: usize) -> bool
        ensures { result
            ≡ nat_lt (open_count (map (without (is_of owner.now)) (opens_in self.now))) limit }
    {
        has_place_without(&self.files, owner, limit)
    }

    /// Makes room for an open of the node's file.
    pub fn reserve(&mut self, node: u32) -> Result<(), AllocError>
        ensures opens { opens_in self.new ≡ opens_in self.old }
        ensures delegations { delegations_in self.new ≡ delegations_in self.old }
        ensures room { OnOk result (HasRoomAt node self.new) }
        ensures ready { HasRoomAt node self.old → IsOk result }
        ensures others { (other : ℕ) → HasRoomAt other self.old → HasRoomAt other self.new }
        ensures lending { (at : ℕ) → HasLendingRoomAt at self.old → HasLendingRoomAt at self.new }
    {
        let node = node as usize;
        if node < self.files.len() {
            reserve_number::<OpenState, FileShare>(&self.files, &mut self.nodes, self.count)?;
            self.files[node].reserve()?;
        }
        Ok(())
    }

    /// OPEN of the node's file, no matter what others deny: adds the share to the owner's open, or makes an open with
    /// this number, which has to be above those of all opens then. It takes no memory.
    pub fn grant(&mut self, node: u32, owner: OpenOwner, share: Share, number: u32)
        requires room { HasRoomAt node self.old }
        requires newest { IsNewestAt node owner number (opens_in self.old) }
        ensures opens { opens_in self.new
            ≡ with_opens node (with_opening owner share number) (opens_in self.old) }
        ensures delegations { delegations_in self.new ≡ delegations_in self.old }
        ensures lending { (at : ℕ) → HasLendingRoomAt at self.old → HasLendingRoomAt at self.new }
    {
        let at = node as usize;
        if at < self.files.len() {
            let is_new = grant_in(&mut self.files[at], owner, share, number);
            if is_new {
                self.nodes.add(number, node);
                self.count += 1;
            }
        }
    }

    /// OPEN_CONFIRM: gives the open of the node's file with this number its next seqid.
    pub fn advance(&mut self, node: u32, number: u32)
        ensures opens { opens_in self.new
            ≡ with_opens node (with_each (is_numbered number) with_next_seqid) (opens_in self.old) }
        ensures delegations { delegations_in self.new ≡ delegations_in self.old }
    {
        let node = node as usize;
        if node < self.files.len() {
            self.files[node].advance(number);
        }
    }

    /// OPEN_DOWNGRADE, no matter whether it is allowed: keeps of the open of the node's file with this number the
    /// shares that this share contains.
    pub fn keep_within(&mut self, node: u32, number: u32, share: Share)
        ensures opens { opens_in self.new
            ≡ with_opens node (with_each (is_numbered number) (after_downgrade share))
            (opens_in self.old) }
        ensures delegations { delegations_in self.new ≡ delegations_in self.old }
    {
        let node = node as usize;
        if node < self.files.len() {
            self.files[node].keep_within(number, share);
        }
    }

    /// CLOSE: removes the open of the node's file with this number.
    pub fn close(&mut self, node: u32, number: u32)
        ensures opens { opens_in self.new
            ≡ with_opens node (without (is_numbered number)) (opens_in self.old) }
        ensures delegations { delegations_in self.new ≡ delegations_in self.old }
    {
        let at = node as usize;
        if at < self.files.len() {
            self.count -= close_in(&mut self.files[at], number);
            self.nodes.remove(number, node);
        }
    }

    /// Removes the opens of the owner.
    pub fn remove_owner(&mut self, owner: &OpenOwner)
        ensures opens { opens_in self.new ≡ map (without (is_of owner.now)) (opens_in self.old) }
        ensures delegations { delegations_in self.new ≡ delegations_in self.old }
        ensures room { (node : ℕ) → HasRoomAt node self.old → HasRoomAt node self.new }
        ensures lending { (at : ℕ) → HasLendingRoomAt at self.old → HasLendingRoomAt at self.new }
    {
        remove_owner_each(&mut self.files, owner);
        self.count -= places_left(&self.files, self.count);
    }

    /// Removes the opens of all owners of this client, and its delegations.
    pub fn remove_client(&mut self, client: ClientId)
        ensures opens { opens_in self.new
            ≡ map (without (is_of_client client)) (opens_in self.old) }
        ensures delegations { delegations_in self.new
            ≡ map (without_lent (is_lent_to client)) (delegations_in self.old) }
    {
        remove_client_each(&mut self.files, client);
        self.count -= places_left(&self.files, self.count);
        self.lent_count -= lending_places_left(&self.files, self.lent_count);
    }

    /// The delegations of the node's file.
    pub fn delegations_of(&self, node: u32) -> &[Delegation]
        ensures { result.now ≡ delegations_of node (delegations_in self.now) }
    {
        match self.files.get(node as usize) {
            Some(file) => file.delegations(),
            None => &[],
        }
    }

    /// The delegation that the stateid names, no matter its seqid, if there is one.
    pub fn find_delegation(&self, stateid: Stateid) -> Option<DelegationFound>
        ensures { option_map delegation_seen result
            ≡ delegation_named_in stateid (delegations_in self.now) }
    {
        let found = self.delegation_named(stateid)?;
        Some(DelegationFound {
            node: found.node,
            state: *found.state,
        })
    }

    /// The delegation that the stateid names, no matter its seqid, if there is one, where it is kept.
    pub fn delegation_named(&self, stateid: Stateid) -> Option<DelegationRef<'_>>
        ensures { option_map delegation_ref_seen result
            ≡ delegation_named_in stateid (delegations_in self.now) }
    {
        let node = self.lent.find(stateid.number)?;
        let file = self.files.get(node as usize)?;
        kept_at(node, file.delegation_named(stateid))
    }

    /// Whether the client has a delegation of the node's file.
    pub fn has_delegation(&self, node: u32, client: ClientId) -> bool
        ensures { result ≡ has_delegation client (delegations_of node (delegations_in self.now)) }
    {
        match self.files.get(node as usize) {
            Some(file) => file.has_delegation(client),
            None => false,
        }
    }

    /// Whether the client has a delegation of any file.
    pub fn has_delegation_of(&self, client: ClientId) -> bool
        ensures { result ≡ list_any (list_any (is_lent_to client)) (delegations_in self.now) }
    {
        has_delegation_in(&self.files, client)
    }

    /// Whether a delegation of the node's file is in the way of this use of it.
    pub fn conflicts(&self, node: u32, file_use: FileUse) -> bool
        ensures { result ≡ has_conflict file_use (delegations_of node (delegations_in self.now)) }
    {
        match self.files.get(node as usize) {
            Some(file) => file.conflicts(file_use),
            None => false,
        }
    }

    /// Whether a delegation of the node's file of this kind to the client would be in no open's way, no delegation of
    /// another client is in its way, and the client has none of the file.
    pub fn can_delegate(&self, node: u32, client: ClientId, kind: DelegationKind) -> bool
        ensures { result ≡ can_delegate client kind (opens_of node (opens_in self.now))
            (delegations_of node (delegations_in self.now)) }
    {
        match self.files.get(node as usize) {
            Some(file) => file.can_delegate(client, kind),
            None => true,
        }
    }

    /// Of the delegations of all files that are due, the delegation with the least number, if there is one. It is the
    /// delegation that is found by its number.
    pub fn next_due(&self, lease: u32, now: Moment) -> Option<DelegationFound>
        ensures next { IsNextDue lease now (delegations_in self.now)
            (option_map delegation_seen result) }
        ensures found { IfSome result (λ next. delegation_numbered_in next.state.number
            (delegations_in self.now) ≡ Some (delegation_seen next)) }
    {
        let mut next = None;
        for node in 0..self.files.len() {
            let due = self.files[node].next_due(lease, now);
            next = lesser(next, lent_at(node as u32, due));
        }
        next
    }

    /// How many places of this limit the delegations leave.
    pub fn delegation_places_left(&self, limit: usize) -> usize
        ensures { result ≡ limit - delegation_count (delegations_in self.now) }
    {
        limit.saturating_sub(self.lent_count)
    }

    /// Makes room for a delegation of the node's file.
    pub fn reserve_delegation(&mut self, node: u32) -> Result<(), AllocError>
        ensures opens { opens_in self.new ≡ opens_in self.old }
        ensures delegations { delegations_in self.new ≡ delegations_in self.old }
        ensures room { OnOk result (HasLendingRoomAt node self.new) }
        ensures ready { HasLendingRoomAt node self.old → IsOk result }
        ensures others { (other : ℕ) → HasLendingRoomAt other self.old
            → HasLendingRoomAt other self.new }
        ensures opening { (at : ℕ) → HasRoomAt at self.old → HasRoomAt at self.new }
    {
        let node = node as usize;
        if node < self.files.len() {
            reserve_number::<Delegation, FileShare>(&self.files, &mut self.lent, self.lent_count)?;
            self.files[node].reserve_delegation()?;
        }
        Ok(())
    }

    /// Lends the client a delegation of the node's file, no matter what others do with the file. Its number has to be
    /// above those of all delegations. It takes no memory.
    pub fn lend(&mut self, node: u32, client: ClientId, kind: DelegationKind, number: u32)
        requires room { HasLendingRoomAt node self.old }
        requires newest { IsAboveAllLent number (delegations_in self.old) }
        ensures delegations { delegations_in self.new
            ≡ with_delegations node (λ all. all ++ first_delegation client kind number ∷ [])
            (delegations_in self.old) }
        ensures opens { opens_in self.new ≡ opens_in self.old }
        ensures opening { (at : ℕ) → HasRoomAt at self.old → HasRoomAt at self.new }
    {
        let at = node as usize;
        if at < self.files.len() {
            self.files[at].lend(client, kind, number);
            self.lent.add(number, node);
            self.lent_count += 1;
        }
    }

    /// Calls back the delegations of the node's file that are in the way of this use of it: those that weren't called
    /// back before have this moment from now on.
    pub fn recall(&mut self, node: u32, file_use: FileUse, moment: Moment)
        ensures delegations { delegations_in self.new
            ≡ with_delegations node (with_recalls file_use moment) (delegations_in self.old) }
        ensures opens { opens_in self.new ≡ opens_in self.old }
        ensures room { (at : ℕ) → HasLendingRoomAt at self.old → HasLendingRoomAt at self.new }
        ensures opening { (at : ℕ) → HasRoomAt at self.old → HasRoomAt at self.new }
    {
        let node = node as usize;
        if node < self.files.len() {
            self.files[node].recall(file_use, moment);
        }
    }

    /// DELEGRETURN: removes the delegation of the node's file with this number.
    pub fn give_back(&mut self, node: u32, number: u32)
        ensures delegations { delegations_in self.new
            ≡ with_delegations node (without_lent (is_delegation_numbered number))
            (delegations_in self.old) }
        ensures opens { opens_in self.new ≡ opens_in self.old }
        ensures room { (at : ℕ) → HasLendingRoomAt at self.old → HasLendingRoomAt at self.new }
        ensures opening { (at : ℕ) → HasRoomAt at self.old → HasRoomAt at self.new }
    {
        let at = node as usize;
        if at < self.files.len() {
            self.lent_count -= give_back_in(&mut self.files[at], number);
            self.lent.remove(number, node);
        }
    }
}

fn has_client_in(files: &[FileShare], client: ClientId) -> bool
    ensures { result ≡ list_any (λ f. list_any (is_of_client client) f.opens) files.now }
{
    files.iter().any(|file| file.has_client(client))
}

fn has_owner_in(files: &[FileShare], client: ClientId, name: &[u8]) -> bool
    ensures { result
        ≡ list_any (λ f. list_any (is_of (owner_named client name.now)) f.opens) files.now }
{
    files.iter().any(|file| file.has_owner(client, name))
}

fn has_delegation_in(files: &[FileShare], client: ClientId) -> bool
    ensures { result ≡ list_any (λ f. list_any (is_lent_to client) f.delegations) files.now }
{
    files.iter().any(|file| file.has_delegation(client))
}

// How many places of this limit the delegations of these files leave.
fn lending_places_left(files: &[FileShare], limit: usize) -> usize
    ensures { result ≡ limit - delegation_count (delegations_in files.now) }
{
    let mut left = limit;
    for file in files.iter() {
        left = left.saturating_sub(file.delegations().len());
    }
    left
}

// How many places of this limit the opens of these files leave.
fn places_left(files: &[FileShare], limit: usize) -> usize
    ensures { result ≡ limit - open_count (opens_in files.now) }
{
    let mut left = limit;
    for file in files.iter() {
        left = left.saturating_sub(file.len());
    }
    left
}

// Whether there are fewer opens of other owners than this limit.
fn has_place_without(files: &[FileShare], owner: &OpenOwner, limit: usize) -> bool
    ensures { result
        ≡ nat_lt (open_count (map (without (is_of owner.now)) (opens_in files.now))) limit }
{
    places_left_without(files, owner, limit) > 0
}

// How many places of this limit the opens of other owners leave.
fn places_left_without(files: &[FileShare], owner: &OpenOwner, limit: usize) -> usize
    ensures { result ≡ limit - open_count (map (without (is_of owner.now)) (opens_in files.now)) }
{
    let mut left = limit;
    for file in files.iter() {
        left = left.saturating_sub(file.count_without(owner));
    }
    left
}

fn remove_owner_each(files: &mut Vec<FileShare>, owner: &OpenOwner)
    ensures opens { opens_in files.new.items
        ≡ map (without (is_of owner.now)) (opens_in files.old.items) }
    ensures delegations { delegations_in files.new.items ≡ delegations_in files.old.items }
    ensures room { (node : ℕ) → HasRoomAt node files.old.items → HasRoomAt node files.new.items }
    ensures lending { (at : ℕ) → HasLendingRoomAt at files.old.items
        → HasLendingRoomAt at files.new.items }
{
    remove_owner_in(files, owner);
}

fn remove_owner_in(files: &mut [FileShare], owner: &OpenOwner)
    ensures opens { opens_in files.new ≡ map (without (is_of owner.now)) (opens_in files.old) }
    ensures delegations { delegations_in files.new ≡ delegations_in files.old }
    ensures room { (node : ℕ) → HasRoomAt node files.old → HasRoomAt node files.new }
    ensures lending { (at : ℕ) → HasLendingRoomAt at files.old → HasLendingRoomAt at files.new }
{
    for file in files.iter_mut() {
        file.remove_owner(owner);
    }
}

fn remove_client_each(files: &mut Vec<FileShare>, client: ClientId)
    ensures opens { opens_in files.new.items
        ≡ map (without (is_of_client client)) (opens_in files.old.items) }
    ensures delegations { delegations_in files.new.items
        ≡ map (without_lent (is_lent_to client)) (delegations_in files.old.items) }
{
    remove_client_in(files, client);
}

fn remove_client_in(files: &mut [FileShare], client: ClientId)
    ensures opens { opens_in files.new ≡ map (without (is_of_client client)) (opens_in files.old) }
    ensures delegations { delegations_in files.new
        ≡ map (without_lent (is_lent_to client)) (delegations_in files.old) }
{
    for file in files.iter_mut() {
        file.remove_client(client);
    }
}

// The open, if there is one, as one of this node's file.
fn found_at(node: u32, open: Option<&OpenState>) -> Option<OpenFound<'_>>
    ensures { option_map open_seen result ≡ at_node node (option_copied open.entry) }
{
    match open {
        Some(state) => Some(OpenFound { node, state }),
        None => None,
    }
}

// The delegation, if there is one, as one of this node's file, where it is kept.
fn kept_at(node: u32, lent: Option<&Delegation>) -> Option<DelegationRef<'_>>
    ensures { option_map delegation_ref_seen result ≡ lent_at node (option_copied lent.entry) }
{
    match lent {
        Some(state) => Some(DelegationRef { node, state }),
        None => None,
    }
}

// The delegation, if there is one, as one of this node's file.
fn lent_at(node: u32, lent: Option<Delegation>) -> Option<DelegationFound>
    ensures { option_map delegation_seen result ≡ lent_at node lent }
{
    match lent {
        Some(state) => Some(DelegationFound { node, state }),
        None => None,
    }
}

// Of the two delegations, of which there may be none, the one with the lesser number.
fn lesser(
    first: Option<DelegationFound>,
    second: Option<DelegationFound>,
) -> Option<DelegationFound>
    ensures { option_map delegation_seen result
        ≡ lesser_at (option_map delegation_seen first) (option_map delegation_seen second) }
{
    let Some(second) = second else { return first };
    match first {
        Some(first) if first.state.number <= second.state.number => Some(first),
        _ => Some(second),
    }
}
