//! OPEN, OPEN_DOWNGRADE and the grant of a delegation as one call each, by well-known names, over the calls that the
//! program makes in their place.

ghost use Rattle.std.specs.Prelude.{◌≡◌, ◌≤◌, ◌<◌, ◌+◌, ◌↔◌, IfErr, IfOk, IsErrOf, IsFalse, IsOk, IsTrue, None, OnErr, OnOk, Some, filter, [], ◌∷◌, ◌++◌, option_map};
ghost use Rattle.nfs_share.specs.Delegations.{IsAboveLent, bars, can_delegate, conflicts, delegation_stateid, first_delegation, has_conflict, has_delegation};
ghost use Rattle.nfs_share.specs.Opens.{CanDowngrade, IsNewestFor, after_downgrade, is_numbered, is_refused, next_stateid_of, open_of, open_with_number, share_of, stateid_of, with_each, with_opening};
ghost use Rattle.nfs_share.specs.ShareError.{IsHeldFor, IsWhyNotLent, IsWhyNotOpened};
ghost use Rattle.nfs_share.specs.declared.delegation.FileUse.TheVariants as uses;

use crate::{Delegation, DelegationKind, FileShare, FileUse, Share, ShareError};
use nfs_forms::{ClientId, OpenOwner, Stateid};
use std::alloc::AllocError;

impl FileShare {
    /// All access of the owner's open, with all that it denies, if the owner has one.
    pub fn share_of(&self, owner: &OpenOwner) -> Option<Share>
        ensures { result ≡ option_map share_of (open_of owner.now self.now.opens) }
    {
        let open = self.open_of(owner)?;
        Some(open.share())
    }

    /// OPEN (RFC 7530, section 16.16): adds the share to the owner's open, or makes an open with this number, which has
    /// to be above those of all opens then. Returns the open's stateid.
    pub fn try_open(
        &mut self,
        owner: OpenOwner,
        share: Share,
        number: u32,
    ) -> Result<Stateid, ShareError>
        requires newest { IsNewestFor owner number self.old.opens }
        ensures ok { OnOk result (
            self.new.opens ≡ with_opening owner share number self.old.opens) }
        ensures stateid { IfOk result (λ stateid.
            option_map stateid_of (open_of owner self.new.opens) ≡ Some stateid) }
        ensures denied { IsErrOf result ShareError.Denied
            ↔ IsTrue (is_refused owner share self.old.opens) }
        ensures free { OnOk result (
            IsFalse (has_conflict (uses.Open owner.client share) self.old.delegations)) }
        ensures why { IfErr result (IsWhyNotOpened owner share self.old) }
        ensures err { OnErr result (self.new ≡ self.old) }
        ensures delegations { self.new.delegations ≡ self.old.delegations }
        ensures room { OnOk result (self.old.room ≤ self.new.room + 1) }
        ensures lending { self.old.lending_room ≤ self.new.lending_room }
    {
        self.check_opening(&owner, share)?;
        self.reserve_for(&owner)?;
        Ok(self.grant(owner, share, number))
    }

    // Is `Ok` where no open of another owner and no delegation is in the way of the owner's OPEN.
    fn check_opening(&self, owner: &OpenOwner, share: Share) -> Result<(), ShareError>
        ensures granted { OnOk result (IsFalse (is_refused owner.now share self.now.opens)) }
        ensures denied { IsErrOf result ShareError.Denied
            ↔ IsTrue (is_refused owner.now share self.now.opens) }
        ensures free { OnOk result (
            IsFalse (has_conflict (uses.Open owner.now.client share) self.now.delegations)) }
        ensures why { IfErr result (IsWhyNotOpened owner.now share self.now) }
    {
        if self.refuses(owner, share) {
            return Err(ShareError::Denied);
        }
        self.check_free(FileUse::Open(owner.client, share))
    }

    // Makes room for an open of this owner, if the owner has none.
    fn reserve_for(&mut self, owner: &OpenOwner) -> Result<(), AllocError>
        ensures opens { self.new.opens ≡ self.old.opens }
        ensures delegations { self.new.delegations ≡ self.old.delegations }
        ensures room { OnOk result (open_of owner.now self.old.opens ≡ None → 0 < self.new.room) }
        ensures grows { self.old.room ≤ self.new.room }
        ensures lending { self.old.lending_room ≤ self.new.lending_room }
        ensures why { OnErr result ((self.old.room ≡ 0) × (open_of owner.now self.old.opens ≡ None)) }
        ensures err { OnErr result (self.new ≡ self.old) }
    {
        match self.open_of(owner) {
            Some(_) => Ok(()),
            None => self.reserve(),
        }
    }

    // Is `Ok` where no delegation is in the way of this use of the file.
    fn check_free(&self, file_use: FileUse) -> Result<(), ShareError>
        ensures ok { OnOk result (IsFalse (has_conflict file_use self.now.delegations)) }
        ensures why { IfErr result (λ e.
            IsTrue (has_conflict file_use self.now.delegations)
            × IsHeldFor (filter (conflicts file_use) self.now.delegations) e) }
    {
        if self.conflicts(file_use) {
            return Err(ShareError::Held(self.delegations.conflicting(file_use)?));
        }
        Ok(())
    }

    /// OPEN_DOWNGRADE (RFC 7530, section 16.19): keeps of the open with this number the shares that this share
    /// contains. Returns the open's stateid.
    pub fn downgrade(&mut self, number: u32, share: Share) -> Result<Stateid, ShareError>
        ensures ok { OnOk result (self.new ≡ record self.old {
          opens = with_each (is_numbered number) (after_downgrade share) self.old.opens;
        }) }
        ensures stateid { IfOk result (λ stateid.
            option_map stateid_of (open_with_number number self.new.opens) ≡ Some stateid) }
        ensures allowed { IsOk result ↔ CanDowngrade number share self.old.opens }
        ensures invalid { IfErr result (λ e. e ≡ ShareError.Invalid) }
        ensures err { OnErr result (self.new ≡ self.old) }
    {
        let stateid = self.downgraded(number, share)?;
        self.keep_within(number, share);
        Ok(stateid)
    }

    // The stateid of the open with this number after an OPEN_DOWNGRADE to this share, if that is allowed.
    fn downgraded(&self, number: u32, share: Share) -> Result<Stateid, ShareError>
        ensures stateid { IfOk result (λ stateid.
            option_map next_stateid_of (open_with_number number self.now.opens) ≡ Some stateid) }
        ensures allowed { IsOk result ↔ CanDowngrade number share self.now.opens }
        ensures invalid { IfErr result (λ e. e ≡ ShareError.Invalid) }
    {
        match self.find(number) {
            Some(open) if open.shares.can_downgrade_to(share) => Ok(open.next_stateid()),
            _ => Err(ShareError::Invalid),
        }
    }

    /// The delegations of other clients that are in the way of an open of the client with this share.
    pub fn conflicts_of(
        &self,
        client: ClientId,
        share: Share,
    ) -> Result<Vec<Delegation>, AllocError>
        ensures ok { IfOk result (λ found. found.items
            ≡ filter (conflicts (uses.Open client share)) self.now.delegations) }
        ensures none { IsFalse (has_conflict (uses.Open client share) self.now.delegations)
            → IsOk result }
    {
        self.delegations.conflicting(FileUse::Open(client, share))
    }

    /// Lends the client a delegation of this kind with this number, which has to be above those of all delegations, if
    /// it is in nobody's way, nobody's is in its way, and the client has none. Returns the delegation's stateid.
    pub fn delegate(
        &mut self,
        client: ClientId,
        kind: DelegationKind,
        number: u32,
    ) -> Result<Stateid, ShareError>
        requires newest { IsAboveLent number self.old.delegations }
        ensures ok { OnOk result (self.new.delegations
            ≡ self.old.delegations ++ first_delegation client kind number ∷ []) }
        ensures stateid { IfOk result (λ stateid.
            stateid ≡ delegation_stateid (first_delegation client kind number)) }
        ensures denied { IsErrOf result ShareError.Denied
            ↔ IsTrue (bars client kind self.old.opens) }
        ensures allowed { OnOk result (
            IsTrue (can_delegate client kind self.old.opens self.old.delegations)) }
        ensures why { IfErr result (IsWhyNotLent client kind self.old) }
        ensures err { OnErr result (self.new ≡ self.old) }
        ensures opens { self.new.opens ≡ self.old.opens }
        ensures room { OnOk result (self.old.lending_room ≤ self.new.lending_room + 1) }
        ensures opening { self.old.room ≤ self.new.room }
    {
        self.check_lending(client, kind)?;
        self.reserve_delegation()?;
        Ok(self.lend(client, kind, number))
    }

    // Is `Ok` where a delegation of this kind can be lent to the client.
    fn check_lending(&self, client: ClientId, kind: DelegationKind) -> Result<(), ShareError>
        ensures denied { IsErrOf result ShareError.Denied ↔ IsTrue (bars client kind self.now.opens) }
        ensures allowed { OnOk result (
            IsTrue (can_delegate client kind self.now.opens self.now.delegations)) }
        ensures granted { OnOk result (IsFalse (bars client kind self.now.opens)) }
        ensures none { OnOk result (IsFalse (has_delegation client self.now.delegations)) }
        ensures why { IfErr result (IsWhyNotLent client kind self.now) }
    {
        match (self.bars(client, kind), self.has_delegation(client)) {
            (true, _) => Err(ShareError::Denied),
            (false, true) => Err(ShareError::Invalid),
            (false, false) => self.check_free(FileUse::Delegation(client, kind)),
        }
    }
}
