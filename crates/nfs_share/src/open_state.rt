//! An open: the shares that one owner has of a file, with the stateid.

use crate::{Share, Shares};
use nfs_forms::{ClientId, OpenOwner, Stateid};

/// An open of a file: all that one owner has opened the file for (RFC 7530, section 9.10).
#[derive(Drop)]
pub struct OpenState {
    pub owner: OpenOwner,
    /// The shares of the OPENs that made it.
    pub shares: Shares,
    /// The number in its stateid.
    pub number: u32,
    /// The seqid in its stateid.
    pub seqid: u32,
}

impl OpenState {
    ghost use Rattle.std.specs.Prelude.{◌≡◌};
    ghost use Rattle.nfs_share.specs.Opens.{with_next_seqid, after_downgrade, first_open, is_of, is_of_client, is_stateid_of, after_open, next_stateid_of, owner_named, share_of, stateid_of};

    /// The open that an owner's first OPEN of the file makes.
    pub fn new(owner: OpenOwner, share: Share, number: u32) -> OpenState
        ensures { result ≡ first_open owner share number }
    {
        OpenState {
            owner,
            shares: Shares::of(share),
            number,
            seqid: 1,
        }
    }

    /// All access of the open, with all that it denies.
    pub fn share(&self) -> Share
        ensures { result ≡ share_of self.now }
    {
        self.shares.union()
    }

    /// The open's stateid as it is now.
    pub fn stateid(&self) -> Stateid
        ensures { result ≡ stateid_of self.now }
    {
        Stateid {
            seqid: self.seqid,
            client: self.owner.client,
            number: self.number,
        }
    }

    /// The open's stateid after its next change.
    pub fn next_stateid(&self) -> Stateid
        ensures { result ≡ next_stateid_of self.now }
    {
        self.stateid().next()
    }

    /// Whether this owner has the open.
    pub fn is_of(&self, owner: &OpenOwner) -> bool
        ensures { result ≡ is_of owner.now self.now }
    {
        self.owner == *owner
    }

    /// Whether the owner with this name at this client has the open.
    pub(crate) fn is_of_name(&self, client: ClientId, name: &[u8]) -> bool
        ensures { result ≡ is_of (owner_named client name.now) self.now }
    {
        self.owner.client == client && self.owner.name.as_slice() == name
    }

    /// Whether the stateid is one of the open's, no matter its seqid.
    pub fn is_named_by(&self, stateid: Stateid) -> bool
        ensures { result ≡ is_stateid_of stateid self.now }
    {
        self.is_of_client(stateid.client) && self.number == stateid.number
    }

    /// Whether an owner of this client has the open.
    pub fn is_of_client(&self, client: ClientId) -> bool
        ensures { result ≡ is_of_client client self.now }
    {
        self.owner.client == client
    }

    /// Gives the open its next seqid.
    pub(crate) fn advance(&mut self)
        ensures { self.new ≡ with_next_seqid self.old }
    {
        self.seqid = self.next_stateid().seqid;
    }

    /// Adds the share of another OPEN.
    pub(crate) fn join(&mut self, share: Share)
        ensures { self.new ≡ after_open share self.old }
    {
        self.shares.insert(share);
        self.advance();
    }

    /// Keeps the shares that this share contains.
    pub(crate) fn downgrade(&mut self, share: Share)
        ensures { self.new ≡ after_downgrade share self.old }
    {
        self.shares.keep_within(share);
        self.advance();
    }
}
