//! Entries of the journal: calls with their replies, and events without a call.

ghost use Rattle.std.specs.Prelude.{◌≡◌, IfOk};
ghost use Rattle.nfs_owners.specs.Kept.{summary_of};
ghost use Rattle.nfs_state.specs.Kept.{kept_with, lock_owner_seqid, seqid_for};
ghost use Rattle.nfs_xdr.specs.Names.{seqid_of};

use crate::{Moment, Request};
use nfs_forms::{Locker, OpenOwner};
use nfs_owners::{KeptSummary, OwnerKind};
use nfs_xdr::{Names, Op, OpResult};
use std::alloc::AllocError;

/// One event that the journal records.
#[derive(Drop)]
pub enum Entry {
    /// An operation that was answered.
    Call(Call),
    /// A client whose lease had run out was removed.
    Expire(Expire),
    /// A delegation that wasn't given back in time was taken away.
    Revoke(Revoke),
    /// It became known whether callbacks reach a client.
    Path(Path),
    /// An open owner that had no open was forgotten.
    Forget(Forget),
}

/// A request and its answer.
#[derive(Drop)]
pub struct Call {
    pub request: Request,
    pub answer: OpResult,
}

/// The end of a client: its lease had run out (RFC 7530, section 9.6).
#[derive(Drop)]
pub struct Expire {
    /// The client's number.
    pub client: u32,
    /// When its lease was renewed last.
    pub seen: Moment,
    /// When it was removed.
    pub now: Moment,
}

/// The end of a delegation that was called back and wasn't given back within a lease (RFC 7530, section 10.4.6).
#[derive(Drop)]
pub struct Revoke {
    /// The number in the delegation's stateid.
    pub number: u32,
    /// When it was taken away.
    pub now: Moment,
}

/// Whether callbacks reach a client, as far as is known (RFC 7530, section 10.2).
#[derive(Drop)]
pub struct Path {
    /// The client's number.
    pub client: u32,
    pub up: bool,
}

/// The end of what is kept for an open owner that has no open, and whose kept request is older than a lease (RFC 7530,
/// section 9.1.10).
#[derive(Drop)]
pub struct Forget {
    pub owner: OpenOwner,
    /// When it was forgotten.
    pub now: Moment,
}

/// How many entries a journal can have.
pub const JOURNAL_LIMIT: usize = 1_000_000;

impl Call {
    /// The sequence id by which the request goes, if it goes by one.
    pub(crate) fn seqid(&self) -> Option<u32>
        ensures { result ≡ seqid_of self.now.request.op }
    {
        match self.request.op.names() {
            Names::Opener(_, seqid) | Names::Owned(_, seqid) => Some(seqid),
            Names::Nothing | Names::Client(_) | Names::State(_) => None,
        }
    }

    /// What is stored of the request, which goes by this sequence id, for an owner of this kind that keeps it.
    pub(crate) fn kept(&self, seqid: u32, kind: OwnerKind) -> KeptSummary
        ensures { result ≡ summary_of (kept_with self.now seqid kind) }
    {
        let op = &self.request.op;
        KeptSummary::of(seqid_for(kind, op, seqid), op, &self.answer)
    }
}

/// A copy of the answer. The contract of `clone` speaks of each variant on its own; this one says that it is equal.
pub fn copy_of_answer(answer: &OpResult) -> Result<OpResult, AllocError>
    ensures { IfOk result (λ r. r ≡ answer.now) }
{
    answer.clone()
}

// Of the operation, which goes by this sequence id, the one that an owner of this kind keeps.
fn seqid_for(kind: OwnerKind, op: &Op, seqid: u32) -> u32
    ensures { result ≡ seqid_for kind op.now seqid }
{
    match (kind, op) {
        (OwnerKind::Lock, Op::Lock(args)) => lock_owner_seqid(&args.locker),
        _ => seqid,
    }
}

// The sequence id in a LOCK of the lock owner.
fn lock_owner_seqid(locker: &Locker) -> u32
    ensures { result ≡ lock_owner_seqid locker.now }
{
    match locker {
        Locker::New(locker) => locker.lock_seqid,
        Locker::Known(locker) => locker.lock_seqid,
    }
}
