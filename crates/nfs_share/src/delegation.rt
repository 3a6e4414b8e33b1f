//! Delegations, with what conflicts with them and when they are revoked.

ghost use Rattle.std.specs.Prelude.{◌≡◌};
ghost use Rattle.nfs_share.specs.Delegations.{conflicts, delegation_stateid, first_delegation, is_due, is_in_way, is_lease_before, is_lent_to, is_of_user, is_stateid_of_delegation, with_recall};

use crate::{Modes, Share};
use nfs_forms::{ClientId, Moment, Stateid};

/// What a delegation lets its client do without asking the server (RFC 7530, section 10.4).
#[derive(Clone, Copy, Debug, PartialEq, Eq)]
pub enum DelegationKind {
    /// Opening the file for reading.
    Read,
    /// Opening the file for reading and for writing, and keeping what is written.
    Write,
}

/// What is done with a file, or asked to be, and by which client, if by one.
#[derive(Clone, Copy)]
pub enum FileUse {
    /// The client opens it for this share.
    Open(ClientId, Share),
    /// The client has a delegation of it.
    Delegation(ClientId, DelegationKind),
    /// The file is read or written by a special stateid: one of the two modes. Such a use is no client's (RFC 7530,
    /// section 9.1.4.3).
    Special(Modes),
}

/// A delegation of a file: its client need not ask the server for opens and locks, until the server calls it back
/// (RFC 7530, section 10.4).
#[derive(Clone, Copy, Debug)]
pub struct Delegation {
    pub client: ClientId,
    pub kind: DelegationKind,
    /// The number in its stateid.
    pub number: u32,
    /// When the server called it back first, if it did.
    pub recalled: Option<Moment>,
}

impl DelegationKind {
    /// Whether a delegation of this kind to somebody else is in the way of this use of the file.
    pub fn is_in_way_of(self, file_use: FileUse) -> bool
        ensures { result ≡ is_in_way self file_use }
    {
        match (self, file_use) {
            (DelegationKind::Write, _) => true,
            (DelegationKind::Read, FileUse::Open(_, share)) => {
                share.access.write || share.deny.read
            }
            (DelegationKind::Read, FileUse::Delegation(_, kind)) => kind == DelegationKind::Write,
            (DelegationKind::Read, FileUse::Special(modes)) => modes.write,
        }
    }
}

impl Delegation {
    /// The delegation as it is lent to the client.
    pub fn new(client: ClientId, kind: DelegationKind, number: u32) -> Delegation
        ensures { result ≡ first_delegation client kind number }
    {
        Delegation {
            client,
            kind,
            number,
            recalled: None,
        }
    }

    /// The delegation's stateid, whose seqid stays 1.
    pub fn stateid(&self) -> Stateid
        ensures { result ≡ delegation_stateid self.now }
    {
        Stateid {
            seqid: 1,
            client: self.client,
            number: self.number,
        }
    }

    /// Whether this client has the delegation.
    pub fn is_of_client(&self, client: ClientId) -> bool
        ensures { result ≡ is_lent_to client self.now }
    {
        self.client == client
    }

    /// Whether the stateid is one of the delegation's, no matter its seqid.
    pub fn is_named_by(&self, stateid: Stateid) -> bool
        ensures { result ≡ is_stateid_of_delegation stateid self.now }
    {
        self.is_of_client(stateid.client) && self.number == stateid.number
    }

    /// Whether the client that uses the file so has the delegation.
    pub fn is_of_user(&self, file_use: FileUse) -> bool
        ensures { result ≡ is_of_user file_use self.now }
    {
        match file_use {
            FileUse::Open(client, _) | FileUse::Delegation(client, _) => self.is_of_client(client),
            FileUse::Special(_) => false,
        }
    }

    /// Whether the delegation is in the way of this use of the file.
    pub fn conflicts(&self, file_use: FileUse) -> bool
        ensures { result ≡ conflicts file_use self.now }
    {
        !self.is_of_user(file_use) && self.kind.is_in_way_of(file_use)
    }

    /// Whether the delegation was called back more than a lease ago.
    pub fn is_due(&self, lease: u32, now: Moment) -> bool
        ensures { result ≡ is_due lease now self.now }
    {
        is_lease_before(self.recalled, lease, now)
    }

    /// Calls the delegation back, unless it was called back before.
    pub(crate) fn recall(&mut self, moment: Moment)
        ensures { self.new ≡ with_recall moment self.old }
    {
        if self.recalled.is_none() {
            self.recalled = Some(moment);
        }
    }
}

/// Whether there is a moment, and it lies more than the lease before now.
pub(crate) fn is_lease_before(moment: Option<Moment>, lease: u32, now: Moment) -> bool
    ensures { result ≡ is_lease_before lease now moment }
{
    match moment {
        Some(moment) => moment.seconds() + u64::from(lease) < now.seconds(),
        None => false,
    }
}
