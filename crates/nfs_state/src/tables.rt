//! All that the server stores besides the journal, and how each change alters it.

ghost use Rattle.std.specs.Prelude.{ℕ, ◌≡◌, ◌<◌, ◌≤◌, ◌+◌, ◌-◌, ◌^◌, IfErr, IfOk, IsOk, IsTrue, OnOk, Some, map};

use crate::change::Change;
use crate::file_change::FileChangeRef;
use crate::limits::STATE_LIMIT;
use crate::owner_change::OwnerChange;
use crate::owner_update::{Keeping, OwnerUpdate};
use crate::seeds::Seeds;
use crate::shortage::Shortage;
use crate::stored_files::StoredFiles;
use nfs_locks::{FirstLock, Locks};
use nfs_owners::{ClientChange, ClientState, Clients, Numbers, OwnerRef, Owners, StateOwner};
use nfs_share::{DelegationKind, Opens, Share};
use nfs_tree::Tree;
use nfs_xdr::{ClientId, OpenOwner};
use std::alloc::{AllocError, Global};

/// What the server stores.
#[derive(Drop)]
pub struct Tables {
    pub clients: Clients,
    pub owners: Owners,
    /// The opens and the delegations of all files.
    pub opens: Opens,
    pub locks: Locks,
    /// The numbers of the opens, lock states and delegations.
    pub numbers: Numbers,
    pub files: StoredFiles,
}

impl Tables {
    ghost use Rattle.std.specs.Option.{option_copied};
    ghost use Rattle.nfs_state.specs.Files.{CanChange, change_of, file_of, files_in, size_of};
    ghost use Rattle.nfs_state.specs.State.{has_state, record_has_state, History};
    ghost use Rattle.nfs_state.specs.Kept.{Agrees, kept_by, owners_after, update_of};
    ghost use Rattle.nfs_state.specs.Changes.{with_grant, with_open, with_owner_change, with_state_change, without_client};
    ghost use Rattle.nfs_state.specs.Changes as changed_state;
    ghost use Rattle.nfs_state.specs.Room.{IsWithinLimits, HasGivenNumbers, HasOwnerPlace, HasOwnerRoom, HasRoom, HasUpdateRoom, CanKeep, state_of, stored_of};
    ghost use Rattle.nfs_state.specs.declared.owner_change.OwnerChange.{OwnerChange};
    ghost use Rattle.nfs_owners.specs.Kept.{Kept};
    ghost use Rattle.nfs_state.specs.declared.change.Change.{Change};
    ghost use Rattle.nfs_owners.specs.Owner.{is_known};
    ghost use Rattle.nfs_owners.specs.StateOwner.{open_owner};
    ghost use Rattle.nfs_owners.specs.declared.state_owner.OwnerKind.{OwnerKind};
    ghost use Rattle.nfs_owners.specs.declared.state_owner.StateOwner.{StateOwner};
    ghost use Rattle.nfs_locks.specs.AllLocks.{HasLockRoomAt};
    ghost use Rattle.nfs_state.specs.Places.{has_state_place, has_state_place_beside};
    ghost use Rattle.nfs_owners.specs.Owners.{AreBefore, has_place, without_owner};
    ghost use Rattle.nfs_share.specs.AllOpens.{HasLendingRoomAt, HasRoomAt, IsAboveAllLent, delegation_count, delegations_in, opens_in};
    ghost use Rattle.nfs_locks.specs.AllLocks.{lock_count};
    ghost use Rattle.nfs_share.specs.Opens.{is_of, without};
    ghost use Rattle.nfs_state.specs.declared.change.Change.TheVariants as changes;
    ghost use Rattle.nfs_owners.specs.ClientRoom.{FitsRecords, HasNumbersFor, HasRoomFor};
    ghost use Rattle.nfs_state.specs.Stored.{empty_store};

    /// The files of the tree, and no clients. Owners and clients will be found by hashes that are keyed by the seeds.
    pub fn of_tree(alloc: Global, tree: &Tree, seeds: Seeds) -> Result<Tables, AllocError>
        ensures { IfOk result (λ t. stored_of t ≡ empty_store tree.now.nodes) }
    {
        let files = StoredFiles::of_tree(alloc, tree)?;
        let opens = Opens::new(alloc, tree.len(), seeds.owners)?;
        let locks = Locks::new(alloc, tree.len(), seeds.owners)?;
        Ok(Tables {
            clients: Clients::new(alloc, seeds.ids),
            owners: Owners::new(alloc, seeds.owners),
            opens,
            locks,
            numbers: Numbers::new(),
            files,
        })
    }

    /// How often the file of the node was changed, and how many bytes it has; both are 0 for a directory.
    pub fn change_and_size(&self, node: u32) -> (u64, u64)
        ensures { result ≡ (
          change_of (file_of (files_in self.now.files) node),
          size_of (file_of (files_in self.now.files) node),
        ) }
    {
        match self.files.find(node) {
            Some(file) => (file.change(), file.size()),
            None => (0, 0),
        }
    }

    /// Whether the client of a record that has this, if there is one, has state.
    pub fn record_has_state(&self, found: Option<&ClientState>) -> bool
        ensures { result ≡ record_has_state (state_of self.now) (option_copied found.entry) }
    {
        match found {
            Some(found) => self.has_state(found.client),
            None => false,
        }
    }

    // Whether the client has state.
    fn has_state(&self, client: ClientId) -> bool
        ensures { result ≡ has_state (state_of self.now) client }
    {
        self.opens.has_client(client)
            || self.locks.has_client(client)
            || self.opens.has_delegation_of(client)
    }

    /// Whether there is a place for one more open, lock state or delegation.
    pub fn has_state_place(&self) -> bool
        ensures { result ≡ has_state_place (state_of self.now) }
    {
        self.opens.has_place(self.places_left())
    }

    /// Whether there is a place for one more of them beside so many others that come as well.
    pub fn has_state_place_beside(&self, others: usize) -> bool
        ensures { result ≡ has_state_place_beside others (state_of self.now) }
    {
        self.opens
            .has_place(self.places_left().saturating_sub(others))
    }

    // How many places the lock states and the delegations leave.
    fn places_left(&self) -> usize
        ensures { result ≡ STATE_LIMIT - (lock_count (state_of self.now).locks
            + delegation_count (state_of self.now).delegations) }
    {
        let left = self.locks.places_left(STATE_LIMIT);
        self.opens.delegation_places_left(left)
    }

    /// Whether there is a place for one more of them without the opens of this owner.
    pub fn has_state_place_without(&self, owner: &OpenOwner) -> bool
        ensures { result ≡ has_state_place (changed_state.without owner.now (state_of self.now)) }
    {
        self.opens.has_place_without(owner, self.places_left())
    }

    /// Makes room for the change, and for what the entry means for an owner. Fails for want of memory alone, and never
    /// where there is room already.
    pub(crate) fn make_room(
        &mut self,
        alloc: Global,
        change: &Change,
        owner: &OwnerChange,
    ) -> Result<(), Shortage>
        requires numbers { IsWithinLimits change.now (state_of self.old) }
        requires place { HasOwnerPlace owner.now (state_of self.old) }
        ensures same { stored_of self.new ≡ stored_of self.old }
        ensures room { OnOk result (
            HasRoom change.now self.new × HasOwnerRoom owner.now self.new) }
        ensures ready { HasRoom change.now self.old
            → HasOwnerRoom owner.now self.old → IsOk result }
        ensures memory { IfErr result (λ e. e ≡ Shortage.Memory) }
    {
        self.make_owner_room(owner)?;
        match change {
            Change::Clients(change) => self.clients.make_room(change)?,
            Change::Opens {
                node,
                delegation,
                ..
            } => {
                self.opens.reserve(*node)?;
                if delegation.is_some() {
                    self.opens.reserve_delegation(*node)?;
                }
            }
            Change::Begins { node, .. } => self.locks.reserve(alloc, *node)?,
            Change::Locks { node, number, .. } => self.locks.reserve_change(*node, *number)?,
            Change::Writes {
                node,
                offset,
                bytes,
            } => {
                let (offset, block) = (*offset as usize, bytes);
                self.files
                    .reserve(*node, FileChangeRef::Writes { offset, block })?
            }
            Change::Cuts { node, size } => {
                let size = *size as usize;
                self.files.reserve(*node, FileChangeRef::Cuts { size })?
            }
            Change::Nothing
            | Change::Confirms { .. }
            | Change::Downgrades { .. }
            | Change::Closes { .. }
            | Change::Releases { .. }
            | Change::Expires(_)
            | Change::Forgets(_)
            | Change::Recalls { .. }
            | Change::Returns { .. }
            | Change::MarksPath { .. } => {}
        }
        Ok(())
    }

    // Makes room for what the entry means for an owner.
    fn make_owner_room(&mut self, change: &OwnerChange) -> Result<(), Shortage>
        requires place { HasOwnerPlace change.now (state_of self.old) }
        ensures same { stored_of self.new ≡ stored_of self.old }
        ensures room { OnOk result (HasOwnerRoom change.now self.new) }
        ensures ready { HasOwnerRoom change.now self.old → IsOk result }
        ensures others { (other : Change)
            → HasRoom other self.old → HasRoom other self.new }
        ensures memory { IfErr result (λ e. e ≡ Shortage.Memory) }
    {
        match change {
            OwnerChange::Nothing
            | OwnerChange::Keeps(_)
            | OwnerChange::KeepsBoth(_, _)
            | OwnerChange::Drops(_) => Ok(()),
            OwnerChange::Introduces(_, newcomer) => Ok(self.owners.reserve(newcomer.as_ref())?),
            OwnerChange::Records { owner, .. } | OwnerChange::Restarts { owner, .. } => {
                Ok(self.owners.reserve(OwnerRef::of_open(owner))?)
            }
        }
    }

    /// Makes what the entry with this number means for an owner, for which there has to be room. It takes no memory.
    pub(crate) fn commit_owner(&mut self, update: OwnerUpdate, number: u32)
        requires room { HasUpdateRoom update self.old }
        requires newest { AreBefore number self.old.owners.owners }
        ensures state { (change : OwnerChange) (kept : OwnerKind → Kept)
            → update ≡ update_of change kept
            → HasOwnerPlace change (state_of self.old)
            → state_of self.new ≡ with_owner_change change number (state_of self.old) }
        ensures nothing { update ≡ OwnerUpdate.Nothing
            → state_of self.new ≡ state_of self.old }
        ensures owners { self.new.owners.owners
            ≡ owners_after update number self.old.owners.owners }
        ensures room { (change : Change)
            → HasRoom change self.old → HasRoom change self.new }
    {
        match update {
            OwnerUpdate::Nothing => {}
            OwnerUpdate::Keeps(keeping) => self.keep(keeping, number),
            OwnerUpdate::KeepsBoth(keeping, newcomer) => {
                self.keep(keeping, number);
                self.keep(newcomer, number);
            }
            OwnerUpdate::Restarts(owner, kept, confirmed) => {
                self.remove_owner(&owner);
                self.owners
                    .keep(StateOwner::of_open(owner), number, kept, confirmed);
            }
            OwnerUpdate::Drops(owner) => self.remove_owner(&owner),
        }
    }

    // Makes the request and the answer of the entry with this number the kept ones of an owner.
    fn keep(&mut self, keeping: Keeping, number: u32)
        requires room { CanKeep keeping.owner self.old.owners }
        requires newest { AreBefore number self.old.owners.owners }
        ensures stored { stored_of self.new ≡ record (stored_of self.old) {
          owners = kept_by keeping number self.old.owners.owners;
        } }
        ensures room { (change : Change)
            → HasRoom change self.old → HasRoom change self.new }
        ensures known { (other : StateOwner)
            → IsTrue (is_known keeping.owner self.old.owners.owners)
            → CanKeep other self.old.owners → CanKeep other self.new.owners }
        ensures before { IsTrue (is_known keeping.owner self.old.owners.owners)
            → AreBefore number self.new.owners.owners }
    {
        self.owners
            .keep(keeping.owner, number, keeping.kept, keeping.confirmed);
    }

    // Forgets the owner, and frees its opens.
    fn remove_owner(&mut self, name: &OpenOwner)
        ensures stored { stored_of self.new ≡ record (stored_of self.old) {
          owners = without_owner (open_owner name.now) self.old.owners.owners;
          opens = map (without (is_of name.now)) (opens_in self.old.opens);
        } }
        ensures room { (change : Change)
            → HasRoom change self.old → HasRoom change self.new }
        ensures owner_room { self.old.owners.room ≤ self.new.owners.room }
        ensures owner_places { (other : StateOwner)
            → IsTrue (has_place other self.old.owners.owners)
            → IsTrue (has_place other self.new.owners.owners) }
    {
        self.owners.remove(OwnerRef::of_open(name));
        self.opens.remove_owner(name);
    }

    /// Makes the change, for which there has to be room. It takes no memory.
    pub(crate) fn commit(&mut self, change: Change)
        requires room { HasRoom change self.old }
        requires numbers { IsWithinLimits change (state_of self.old) }
        requires given { HasGivenNumbers (state_of self.old) }
        requires changes { CanChange (files_in self.old.files) }
        ensures state { state_of self.new ≡ with_state_change change (state_of self.old) }
        ensures kept { (journal : History)
            → Agrees journal self.old.owners.owners → Agrees journal self.new.owners.owners }
    {
        match change {
            Change::Nothing => {}
            Change::Clients(change) => self.commit_clients(change),
            Change::Opens {
                node,
                owner,
                share,
                delegation,
            } => {
                let client = owner.client;
                self.commit_open(node, owner, share);
                if let Some(kind) = delegation {
                    self.commit_grant(node, client, kind);
                }
            }
            Change::Recalls {
                node,
                file_use,
                moment,
            } => self.opens.recall(node, file_use, moment),
            Change::Returns { node, number } => self.opens.give_back(node, number),
            Change::Writes {
                node,
                offset,
                bytes,
            } => self.files.write(node, offset, &bytes),
            Change::Cuts { node, size } => self.files.cut(node, size),
            Change::MarksPath { client, path } => self.clients.mark(client, path),
            Change::Confirms {
                node,
                number,
                owner,
            } => {
                self.owners.confirm(OwnerRef::of_open(&owner));
                self.opens.advance(node, number);
            }
            Change::Downgrades {
                node,
                number,
                share,
            } => self.opens.keep_within(node, number, share),
            Change::Closes { node, number } => {
                self.opens.close(node, number);
                self.locks.close(node, number);
            }
            Change::Begins { node, first } => self.commit_first_lock(node, first),
            Change::Locks {
                node,
                number,
                change,
            } => self.locks.change(node, number, change),
            Change::Releases { owner } => {
                self.owners.remove(OwnerRef::of_lock(&owner));
                self.locks.remove_owner(&owner);
            }
            Change::Forgets(owner) => self.owners.remove(OwnerRef::of_open(&owner)),
            Change::Expires(client) => {
                self.leave(client);
                self.clients.remove(client.number);
            }
        }
    }

    // Adds the share to the owner's open, or makes an open with the next number.
    fn commit_open(&mut self, node: u32, owner: OpenOwner, share: Share)
        requires room { HasRoomAt node self.old.opens }
        requires numbers { self.old.numbers < 2 ^ 32 - 1 }
        requires given { HasGivenNumbers (state_of self.old) }
        ensures state { state_of self.new ≡ with_open node owner share (state_of self.old) }
        ensures owners { self.new.owners ≡ self.old.owners }
        ensures room { HasLendingRoomAt node self.old.opens
            → HasLendingRoomAt node self.new.opens }
        ensures numbers { (self.old.numbers ≤ self.new.numbers)
            × (self.new.numbers ≤ self.old.numbers + 1) }
    {
        let number = self.numbers.upcoming();
        if self.opens.open_of(node, &owner).is_none() {
            self.numbers.next();
        }
        self.opens.grant(node, owner, share, number);
    }

    // Gives the client a delegation with the next number.
    fn commit_grant(&mut self, node: u32, client: ClientId, kind: DelegationKind)
        requires room { HasLendingRoomAt node self.old.opens }
        requires numbers { self.old.numbers < 2 ^ 32 - 1 }
        requires newest { IsAboveAllLent (self.old.numbers + 1) (delegations_in self.old.opens) }
        ensures state { state_of self.new ≡ with_grant node client (Some kind) (state_of self.old) }
        ensures owners { self.new.owners ≡ self.old.owners }
    {
        let number = self.numbers.upcoming();
        self.numbers.next();
        self.opens.lend(node, client, kind, number);
    }

    // Makes a lock state with the next number.
    fn commit_first_lock(&mut self, node: u32, first: FirstLock)
        requires room { HasLockRoomAt node self.old.locks }
        requires numbers { self.old.numbers < 2 ^ 32 - 1 }
        requires given { HasGivenNumbers (state_of self.old) }
        ensures state { state_of self.new
            ≡ with_state_change (changes.Begins node first) (state_of self.old) }
        ensures owners { self.new.owners ≡ self.old.owners }
    {
        let number = self.numbers.upcoming();
        self.numbers.next();
        self.locks.begin(node, first, number);
    }

    // Changes the clients' records. A client that is replaced loses its owners, its opens, its lock states and its
    // delegations.
    fn commit_clients(&mut self, change: ClientChange)
        requires room { HasRoomFor change self.old.clients }
        requires numbers { HasNumbersFor change self.old.clients.registry }
        requires fits { FitsRecords change self.old.clients.registry }
        ensures state { state_of self.new
            ≡ with_state_change (changes.Clients change) (state_of self.old) }
        ensures kept { (journal : History)
            → Agrees journal self.old.owners.owners → Agrees journal self.new.owners.owners }
    {
        if let ClientChange::Replaces(_, client) = &change {
            self.leave(*client);
        }
        self.clients.commit(change);
    }

    // Forgets the owners, the opens, the lock states and the delegations of the client.
    fn leave(&mut self, client: ClientId)
        ensures state { state_of self.new ≡ without_client client (state_of self.old) }
        ensures clients { self.new.clients ≡ self.old.clients }
        ensures kept { (journal : History)
            → Agrees journal self.old.owners.owners → Agrees journal self.new.owners.owners }
    {
        self.owners.remove_client(client);
        self.opens.remove_client(client);
        self.locks.remove_client(client);
    }
}
