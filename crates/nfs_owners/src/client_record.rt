//! Clients' records, as SETCLIENTID adds them and SETCLIENTID_CONFIRM confirms them.

use crate::slots::slot_of;
use crate::{ClientCallback, ClientRef};
use nfs_operations::setclientid::ID_LIMIT;
use nfs_operations::setclientid_confirm::SetclientidConfirm;
use nfs_xdr::{ClientId, Principal, Verifier};
use xdr::Opaque;

/// What the server stores of a SETCLIENTID, written { v, x, c, l, s } in RFC 7530, section 16.33.5.
#[derive(Drop)]
pub struct ClientRecord {
    /// The name that the client gave itself (x).
    pub id: Opaque<ID_LIMIT>,
    pub state: ClientState,
}

/// What a client's record has besides the client's name.
#[derive(Clone, Drop)]
pub struct ClientState {
    /// The principal that sent the SETCLIENTID.
    pub principal: Principal,
    /// Identifies one start of the client (v).
    pub verifier: Verifier,
    /// How the client is called back (l).
    pub callback: ClientCallback,
    /// The confirm value, which SETCLIENTID_CONFIRM has to repeat (s).
    pub confirm: u64,
    /// The clientid (c).
    pub client: ClientId,
    /// Whether callbacks reach the client.
    pub path: PathMark,
}

/// What is known about the path to a client's callbacks.
#[derive(Clone, Copy, PartialEq, Eq)]
pub enum PathMark {
    /// Nothing is known yet of the path.
    Unknown,
    /// A callback was accepted, or is assumed to have been.
    Up,
    /// A callback was not accepted, or the client gave no valid address.
    Down,
}

impl ClientRecord {
    ghost use Rattle.std.specs.Prelude.{◌≡◌, ◌<◌};
    ghost use Rattle.nfs_owners.specs.LiveClients.{has_unknown_path};
    ghost use Rattle.nfs_owners.specs.Registry.{client_seen, is_named_by, is_of, is_of_client};
    ghost use Rattle.nfs_owners.specs.Slots.{slot_of};
    ghost use Rattle.nfs_owners.specs.declared.slots.TheConstants.{SLOTS};

    /// Whether the record has this id.
    pub(crate) fn is_of(&self, id: &[u8]) -> bool
        ensures { result ≡ is_of id.now self.now }
    {
        self.id.as_slice() == id
    }

    /// Whether the record is one of the client with this number.
    pub(crate) fn is_of_client(&self, number: u32) -> bool
        ensures { result ≡ is_of_client number self.now }
    {
        self.state.client.number == number
    }

    /// The slot of the client's number.
    pub(crate) fn slot(&self) -> u32
        ensures slot { result ≡ slot_of self.now.state.client.number }
        ensures range { result < SLOTS }
    {
        slot_of(self.state.client.number)
    }

    /// Whether nothing is known of the path to the client's callbacks.
    pub(crate) fn has_unknown_path(&self) -> bool
        ensures { result ≡ has_unknown_path self.now }
    {
        match self.state.path {
            PathMark::Unknown => true,
            PathMark::Up | PathMark::Down => false,
        }
    }

    /// Whether the arguments of SETCLIENTID_CONFIRM name the record, by its clientid and its confirm value.
    pub(crate) fn is_named_by(&self, args: &SetclientidConfirm) -> bool
        ensures { result ≡ is_named_by args.now self.now }
    {
        self.state.client == args.client && self.state.confirm == args.confirm
    }

    /// The record, lent.
    pub(crate) fn as_ref(&self) -> ClientRef<'_>
        ensures { client_seen result ≡ self.now }
    {
        ClientRef {
            id: self.id.as_slice(),
            state: &self.state,
        }
    }
}
