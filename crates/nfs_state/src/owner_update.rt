//! What an entry means for its owners, with what is stored of the entry's request.

ghost use Rattle.std.specs.Prelude.{◌≡◌};
ghost use Rattle.nfs_state.specs.Kept.{kept_in, kept_with, update_by, update_of};

use crate::owner_change::OwnerChange;
use crate::{Call, Entry};
use nfs_forms::OpenOwner;
use nfs_owners::{KeptSummary, OwnerKind, StateOwner};

/// What an entry means for the owners, with what is stored of the request for each that keeps it.
#[derive(Drop)]
pub(crate) enum OwnerUpdate {
    Nothing,
    /// This owner keeps the request and the answer, and is recorded if it isn't known.
    Keeps(Keeping),
    /// Both owners keep the request and the answer.
    KeepsBoth(Keeping, Keeping),
    /// This owner is dropped with its opens, becomes known anew, confirmed or not, and keeps the request and the
    /// answer.
    Restarts(OpenOwner, KeptSummary, bool),
    /// This owner is dropped with its opens.
    Drops(OpenOwner),
}

/// An owner, and what is stored of the request that it keeps.
#[derive(Drop)]
pub(crate) struct Keeping {
    pub owner: StateOwner,
    pub kept: KeptSummary,
    /// Whether the owner is confirmed, if it becomes known by the request.
    pub confirmed: bool,
}

impl OwnerUpdate {
    /// What the entry means for the owners, where it may be kept so.
    pub(crate) fn of(change: OwnerChange, entry: &Entry) -> OwnerUpdate
        ensures { result ≡ update_by change (kept_in entry.now) }
    {
        match entry {
            Entry::Call(call) => match call.seqid() {
                Some(seqid) => OwnerUpdate::of_call(change, call, seqid),
                None => OwnerUpdate::Nothing,
            },
            Entry::Expire(_) | Entry::Revoke(_) | Entry::Path(_) | Entry::Forget(_) => {
                OwnerUpdate::Nothing
            }
        }
    }

    // What the call, which goes by this sequence id, means for the owners.
    fn of_call(change: OwnerChange, call: &Call, seqid: u32) -> OwnerUpdate
        ensures { result ≡ update_of change (kept_with call.now seqid) }
    {
        match change {
            OwnerChange::Nothing => OwnerUpdate::Nothing,
            OwnerChange::Keeps(owner) => OwnerUpdate::Keeps(Keeping::of(owner, false, call, seqid)),
            OwnerChange::KeepsBoth(owner, newcomer) | OwnerChange::Introduces(owner, newcomer) => {
                OwnerUpdate::KeepsBoth(
                    Keeping::of(owner, false, call, seqid),
                    Keeping::of(newcomer, false, call, seqid),
                )
            }
            OwnerChange::Records { owner, confirmed } => {
                OwnerUpdate::Keeps(Keeping::of(StateOwner::of_open(owner), confirmed, call, seqid))
            }
            OwnerChange::Restarts { owner, confirmed } => {
                OwnerUpdate::Restarts(owner, call.kept(seqid, OwnerKind::Open), confirmed)
            }
            OwnerChange::Drops(owner) => OwnerUpdate::Drops(owner),
        }
    }
}

impl Keeping {
    ghost use Rattle.nfs_state.specs.Kept.{keeping};

    // The owner, confirmed or not if it becomes known, with what is stored of the call, which goes by this sequence id.
    fn of(owner: StateOwner, confirmed: bool, call: &Call, seqid: u32) -> Keeping
        ensures { result ≡ keeping owner confirmed (kept_with call.now seqid) }
    {
        let kept = call.kept(seqid, owner.kind);
        Keeping {
            owner,
            kept,
            confirmed,
        }
    }
}
