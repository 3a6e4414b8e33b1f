//! Owners: whether an owner is confirmed, and which of its requests is stored.

ghost use Rattle.std.specs.Prelude.{◌≡◌};
ghost use Rattle.nfs_owners.specs.Owner.{has_client, has_name, with_request, new_owner, new_state};
ghost use Rattle.nfs_owners.specs.StateOwner.{owner_seen};

use crate::{KeptSummary, OwnerRef, StateOwner};
use nfs_xdr::ClientId;

/// An owner that the server knows (RFC 7530, section 9.1.5).
#[derive(Drop)]
pub struct Owner {
    pub name: StateOwner,
    pub state: OwnerState,
}

/// What the server keeps for an owner: its kept request is the last one that counted, which the journal has.
#[derive(Drop)]
pub struct OwnerState {
    /// Whether the owner is confirmed, by an OPEN_CONFIRM or when it was recorded. It is an open owner then.
    pub confirmed: bool,
    /// The number of the journal's entry that recorded the owner.
    pub recorded: u32,
    /// The number of the journal's entry of the kept request.
    pub number: u32,
    /// What is stored of that request.
    pub kept: KeptSummary,
}

/// What the server knows of an owner (RFC 7530, section 9.1.11).
#[derive(Clone, Copy, PartialEq, Eq)]
pub enum OwnerStanding {
    /// The owner isn't known.
    Unknown,
    /// The owner is an open owner that has opened a file, and no OPEN_CONFIRM has come.
    Unconfirmed,
    /// The owner is an open owner for which an OPEN_CONFIRM has come, or a lock owner, which needs none.
    Confirmed,
}

/// How many owners the server can know at a time.
pub const OWNER_LIMIT: usize = 16_384;

impl Owner {
    /// An owner that is recorded by its first request, in the journal's entry of this number, confirmed or not.
    pub fn new(name: StateOwner, number: u32, kept: KeptSummary, confirmed: bool) -> Owner
        ensures { result ≡ new_owner name number kept confirmed }
    {
        Owner {
            name,
            state: OwnerState::new(number, kept, confirmed),
        }
    }

    /// Whether the owner has this name at this client.
    pub fn has_name(&self, name: OwnerRef<'_>) -> bool
        ensures { result ≡ has_name (owner_seen name.entry) self.now }
    {
        name.is(&self.name)
    }

    /// Whether the owner is one of this client's.
    pub fn has_client(&self, client: ClientId) -> bool
        ensures { result ≡ has_client client self.now }
    {
        self.name.client == client
    }
}

impl OwnerState {
    /// That of an owner that is recorded by its first request, in the journal's entry of this number.
    pub fn new(number: u32, kept: KeptSummary, confirmed: bool) -> OwnerState
        ensures { result ≡ new_state number kept confirmed }
    {
        OwnerState {
            confirmed,
            recorded: number,
            number,
            kept,
        }
    }

    /// Makes this the kept request, in the journal's entry of this number.
    pub fn keep(&mut self, number: u32, kept: KeptSummary)
        ensures { self.new ≡ with_request number kept self.old }
    {
        self.number = number;
        self.kept = kept;
    }
}
