//! The changes that rules decide, as values, so that deciding and changing are apart.

use nfs_forms::{LockOwner, Moment};
use nfs_locks::FirstLock;
use nfs_owners::{ClientChange, LiveChange, PathMark};
use nfs_ranges::Piece;
use nfs_share::{DelegationKind, FileUse, Share};
use nfs_xdr::{ClientId, OpenOwner};
use xdr::SharedBytes;

/// What an entry changes in the state, besides what its entry means for an owner.
#[derive(Drop)]
pub enum Change {
    Nothing,
    /// The clients' records. A client that is replaced loses its owners, its opens, its lock states and its
    /// delegations.
    Clients(ClientChange),
    /// The owner opens the node's file for this share: its open of the file gains it, or it gets one with the next
    /// number. Its client may be given a delegation of the file as well, with the number after that.
    Opens {
        node: u32,
        owner: OpenOwner,
        share: Share,
        delegation: Option<DelegationKind>,
    },
    /// The delegations that are in the way of this use of the node's file are called back at this moment.
    Recalls {
        node: u32,
        file_use: FileUse,
        moment: Moment,
    },
    /// The delegation of the node's file with this number is given back, or revoked.
    Returns {
        node: u32,
        number: u32,
    },
    /// These bytes, which the entry's WRITE shares, come into the node's file at this offset.
    Writes {
        node: u32,
        offset: u64,
        bytes: SharedBytes,
    },
    /// The node's file gets this size: its bytes behind it are gone, and zeros come where there are fewer.
    Cuts {
        node: u32,
        size: u64,
    },
    /// Whether callbacks reach the client with this number.
    MarksPath {
        client: u32,
        path: PathMark,
    },
    /// The owner is confirmed, and its open with this number gets its next seqid.
    Confirms {
        node: u32,
        number: u32,
        owner: OpenOwner,
    },
    /// Of the open with this number the shares are kept that this share contains.
    Downgrades {
        node: u32,
        number: u32,
        share: Share,
    },
    /// The open with this number is freed, with its lock states.
    Closes {
        node: u32,
        number: u32,
    },
    /// A lock owner's first lock of the node's file makes a lock state with the next number.
    Begins {
        node: u32,
        first: FirstLock,
    },
    /// The lock state with this number holds other bytes, and gets its next seqid.
    Locks {
        node: u32,
        number: u32,
        change: Piece,
    },
    /// The lock owner is forgotten with its lock states.
    Releases {
        owner: LockOwner,
    },
    /// The client is removed with all its records, its owners, its opens, its lock states and its delegations.
    Expires(ClientId),
    /// The open owner, which has no open, is forgotten.
    Forgets(OpenOwner),
}

impl Change {
    ghost use Rattle.std.specs.Prelude.{◌≡◌};
    ghost use Rattle.nfs_state.specs.LiveChange.{live_change_of};

    /// Which client becomes live by the change, or is live no longer.
    pub fn live(&self) -> LiveChange
        ensures { result ≡ live_change_of self.now }
    {
        match self {
            Change::Clients(change) => change.live(),
            Change::Expires(client) => LiveChange::Goes(client.number),
            Change::Nothing
            | Change::Opens { .. }
            | Change::Recalls { .. }
            | Change::Returns { .. }
            | Change::Writes { .. }
            | Change::Cuts { .. }
            | Change::MarksPath { .. }
            | Change::Confirms { .. }
            | Change::Downgrades { .. }
            | Change::Closes { .. }
            | Change::Begins { .. }
            | Change::Locks { .. }
            | Change::Releases { .. }
            | Change::Forgets(_) => LiveChange::Same,
        }
    }
}
