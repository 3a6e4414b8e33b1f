//! Open owners and lock owners as one type, since both go by sequence ids.

ghost use Rattle.std.specs.Prelude.{◌≡◌};
ghost use Rattle.nfs_owners.specs.StateOwner.{lock_owner, open_owner, owner_seen};

use crate::OwnerRef;
use nfs_forms::{ClientId, LockOwner, OWNER_NAME_LIMIT, OpenOwner};
use xdr::Opaque;

/// The name spaces of owners, each of its own.
#[derive(Clone, Copy, PartialEq, Eq)]
pub enum OwnerKind {
    Open,
    Lock,
}

/// Who goes by sequence ids at a client: an open owner or a lock owner (RFC 7530, section 9.1.5).
#[derive(Drop)]
pub struct StateOwner {
    pub kind: OwnerKind,
    pub client: ClientId,
    /// The name that the client gave it.
    pub name: Opaque<OWNER_NAME_LIMIT>,
}

impl StateOwner {
    /// This open owner, as an owner of either kind.
    pub fn of_open(owner: OpenOwner) -> StateOwner
        ensures { result ≡ open_owner owner }
    {
        StateOwner {
            kind: OwnerKind::Open,
            client: owner.client,
            name: owner.name,
        }
    }

    /// This lock owner, as an owner of either kind.
    pub fn of_lock(owner: LockOwner) -> StateOwner
        ensures { result ≡ lock_owner owner }
    {
        StateOwner {
            kind: OwnerKind::Lock,
            client: owner.client,
            name: owner.name,
        }
    }

    /// The owner, lent.
    pub fn as_ref(&self) -> OwnerRef<'_>
        ensures { owner_seen result ≡ self.now }
    {
        OwnerRef {
            kind: self.kind,
            client: self.client,
            name: self.name.as_slice(),
        }
    }
}
