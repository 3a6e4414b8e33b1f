//! Names an owner without a copy of its name.

ghost use Rattle.std.specs.Prelude.{◌≤◌, length};
ghost use Rattle.nfs_forms.specs.declared.open_owner.TheConstants.{OWNER_NAME_LIMIT};

use crate::copy_of_bytes::copy_of_bytes;
use crate::{OwnerKind, StateOwner};
use nfs_forms::{ClientId, LockOwner, OWNER_NAME_LIMIT, OpenOwner};
use nfs_rows::OwnerSeed;
use std::alloc::{AllocError, Global};

/// An owner's kind, client and name, lent: by these an owner is looked for without a copy of its name, which is at most
/// as long as that of an owner.
#[derive(Clone, Copy)]
pub struct OwnerRef<'a> {
    pub kind: OwnerKind,
    pub client: ClientId,
    pub name: &'a [u8],
    pub ghost short: { length name.now ≤ OWNER_NAME_LIMIT },
}

impl<'a> OwnerRef<'a> {
    ghost use Rattle.std.specs.Prelude.{◌≡◌, IfOk};
    ghost use Rattle.nfs_owners.specs.OwnerRows.{name_hash};
    ghost use Rattle.nfs_owners.specs.StateOwner.{as_open_owner, is_same_state_owner, lock_owner, open_owner, owner_seen};

    /// The reference to this open owner.
    pub fn of_open(owner: &'a OpenOwner) -> OwnerRef<'a>
        ensures { owner_seen result ≡ open_owner owner.now }
    {
        OwnerRef {
            kind: OwnerKind::Open,
            client: owner.client,
            name: owner.name.as_slice(),
        }
    }

    /// The reference to this lock owner.
    pub fn of_lock(owner: &'a LockOwner) -> OwnerRef<'a>
        ensures { owner_seen result ≡ lock_owner owner.now }
    {
        OwnerRef {
            kind: OwnerKind::Lock,
            client: owner.client,
            name: owner.name.as_slice(),
        }
    }

    /// A copy of the owner.
    pub fn to_owned(self, alloc: Global) -> Result<StateOwner, AllocError>
        ensures { IfOk result (λ o. o ≡ owner_seen self.entry) }
    {
        Ok(StateOwner {
            kind: self.kind,
            client: self.client,
            name: copy_of_bytes(alloc, self.name)?,
        })
    }

    /// A copy of the owner as an open owner, whatever its kind.
    pub fn to_open_owner(self, alloc: Global) -> Result<OpenOwner, AllocError>
        ensures { IfOk result (λ o. o ≡ as_open_owner (owner_seen self.entry)) }
    {
        Ok(OpenOwner {
            client: self.client,
            name: copy_of_bytes(alloc, self.name)?,
        })
    }

    // The keyed hash of the owner's name.
    pub(crate) fn hash(self, names: OwnerSeed) -> u64
        ensures { result ≡ name_hash names (owner_seen self.entry) }
    {
        let space = u64::from(self.client.epoch) * 0x1_0000_0000 + u64::from(self.client.number);
        let kind = match self.kind {
            OwnerKind::Open => 0,
            OwnerKind::Lock => 1,
        };
        names.hash(space, kind, self.name)
    }

    /// Whether the owner is this one.
    pub fn is(self, owner: &StateOwner) -> bool
        ensures { result ≡ is_same_state_owner owner.now (owner_seen self.entry) }
    {
        owner.kind == self.kind && owner.client == self.client && owner.name.as_slice() == self.name
    }
}
