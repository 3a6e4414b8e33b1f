//! Judges a request by its sequence id: next, the last one again, or bad.

ghost use Rattle.std.specs.Prelude.{◌≡◌, ◌≢◌, ◌==◌, MatchBool};
ghost use Rattle.nfs_owners.specs.Closers.{closed_by};
ghost use Rattle.nfs_owners.specs.Kept.{IsVerdict, closed_in, closed_stateid, is_freeing, kept_seen, next_seqid, request_of, summary_closes};

use nfs_forms::Stateid;
use nfs_xdr::{Answer, ClientId, Op, OpResult};

/// What is stored of the request that is kept for an owner: the owner's entry in the journal has the request itself,
/// and the answer to it (RFC 7530, section 9.1.8).
#[derive(Clone, Copy)]
pub struct KeptSummary {
    pub seqid: u32,
    /// The stateid of the state that it closed, if it is a CLOSE that was answered NFS4_OK.
    pub closed: Option<Stateid>,
}

/// The request that is kept for an owner, and the answer to it, as the owner's entry in the journal has them.
#[derive(Clone, Copy)]
pub struct KeptCall<'a> {
    pub op: &'a Op,
    /// The node of the current filehandle, if there is one.
    pub filehandle: Option<u32>,
    pub answer: &'a OpResult,
}

/// The verdict on a request, given the one that is kept for its owner (RFC 7530, section 9.1.7).
#[derive(Clone, Copy)]
pub enum Verdict<'a> {
    /// The request is the owner's next one.
    New,
    /// The request is the kept one again, which had this answer.
    Replay(&'a OpResult),
    /// The request is neither the owner's next one nor the kept one.
    Bad,
}

impl KeptSummary {
    /// What is stored of a request with this sequence id and operation, which had this answer.
    pub fn of(seqid: u32, op: &Op, answer: &OpResult) -> KeptSummary
        ensures { result ≡ record { seqid = seqid; closed = closed_stateid op.now answer.now } }
    {
        let closed = if is_freeing(answer) {
            closed_in(op)
        } else {
            None
        };
        KeptSummary { seqid, closed }
    }

    /// The verdict on a request with this sequence id, operation and current filehandle, where this call is the kept
    /// one.
    pub fn judge<'a>(
        &self,
        kept: KeptCall<'a>,
        seqid: u32,
        op: &Op,
        filehandle: Option<u32>,
    ) -> Verdict<'a>
        ensures { IsVerdict (kept_seen self.now kept.entry) seqid
            (request_of op.now filehandle) result }
    {
        if self.precedes(seqid) {
            Verdict::New
        } else if seqid == self.seqid && kept.is(op, filehandle) {
            Verdict::Replay(kept.answer)
        } else {
            Verdict::Bad
        }
    }

    /// Whether this sequence id is the next one.
    pub fn precedes(&self, seqid: u32) -> bool
        ensures { result ≡ (seqid == next_seqid self.now.seqid) }
    {
        seqid == next_seqid(self.seqid)
    }

    // The number of the state that the request closed, if it closed one.
    pub(crate) fn closed_number(&self) -> Option<u32>
        ensures { result ≡ closed_by self.now }
    {
        match self.closed {
            Some(stateid) => Some(stateid.number),
            None => None,
        }
    }

    /// Whether the request closed the client's state with this number.
    pub fn closes(&self, client: ClientId, number: u32) -> bool
        ensures { result ≡ summary_closes client number self.now }
    {
        match self.closed {
            Some(stateid) => stateid.client == client && stateid.number == number,
            None => false,
        }
    }
}

impl KeptCall<'_> {
    /// Whether a request has this operation, with the same arguments, and this current filehandle.
    pub fn is(&self, op: &Op, filehandle: Option<u32>) -> bool
        ensures { MatchBool result
            (request_of self.now.op.now self.now.filehandle ≡ request_of op.now filehandle)
            (request_of self.now.op.now self.now.filehandle ≢ request_of op.now filehandle) }
    {
        self.filehandle == filehandle && self.op.is_same(op)
    }
}

// Whether the answer is that of a CLOSE that freed a state.
fn is_freeing(answer: &OpResult) -> bool
    ensures { result ≡ is_freeing answer.now }
{
    matches!(answer, OpResult::Close(Answer::Done(_)))
}

// The stateid in the operation, if it is a CLOSE.
fn closed_in(op: &Op) -> Option<Stateid>
    ensures { result ≡ closed_in op.now }
{
    match op {
        Op::Close(args) => Some(args.stateid),
        _ => None,
    }
}

// The sequence id after this one.
fn next_seqid(seqid: u32) -> u32
    ensures { result ≡ next_seqid seqid }
{
    seqid.wrapping_add(1)
}
