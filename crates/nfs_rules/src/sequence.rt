//! Finds the owner whose sequence id a request has, and replays or refuses a request that isn't the next.

ghost use Rattle.std.specs.Prelude.{◌≡◌, ◌≢◌, ◌&&◌, not, IfOk, IsTrue, OnErr, find, is_some, option_map};
ghost use Rattle.nfs_rules.specs.Finding.{IsCallAt, call_at, found_seen, requester_seen, sequence_seen, stored_or_bad, target_seen};
ghost use Rattle.nfs_rules.specs.Deciding.{HasAnswer, HasOtherRefusal, HasPassage, IsOther, IsSendableSequence};
ghost use Rattle.nfs_state.specs.Entries.{IsSendable};
ghost use Rattle.nfs_state.specs.Kept.{Agrees};
ghost use Rattle.nfs_state.specs.Room.{state_of};
ghost use Rattle.nfs_state.specs.State.{History};
ghost use Rattle.nfs_state.specs.Store.{OwnersAgree};
ghost use Rattle.nfs_rules.specs.Sequences.{IsJudged, IsOfKnown, IsOfUnknown, IsRestart, IsSequence, is_open, refusal_to, requester_of_found, requester_of_open, requester_of_target};
ghost use Rattle.nfs_owners.specs.Kept.{kept_seen, summary_closes};
ghost use Rattle.nfs_owners.specs.StateOwner.{owner_seen};

use crate::passage::Passage;
use crate::stateids::Found;
use nfs_owners::{KeptCall, KeptSummary, OwnerRef, OwnerState, Verdict};
use nfs_state::{Entry, Journal, Request, Store, Tables};
use nfs_xdr::{Op, OpResult, OpenOwner, Refusal, Stateid};
use std::alloc::AllocError;

/// Whose sequence id a request goes by, with that of the request, or why it goes by none.
#[derive(Clone, Copy)]
pub(crate) enum Requester<'a> {
    Refused(Refusal),
    Owner(OwnerRef<'a>, u32),
}

/// Whether a request is answered without its own rule, or goes on to it, as one of this owner's.
#[derive(Drop)]
pub(crate) enum SequenceStep<'a> {
    Answered(OpResult),
    GoesOn(Passage, OwnerRef<'a>),
}

/// The owner in an OPEN's arguments, if its client is known.
pub(crate) fn requester_of_open<'a>(
    tables: &Tables,
    owner: &'a OpenOwner,
    seqid: u32,
) -> Requester<'a>
    ensures requester { requester_seen result
        ≡ requester_of_open (state_of tables.now) owner.now seqid }
    ensures refusal { HasOtherRefusal (requester_seen result) }
{
    match tables.clients.of(owner.client) {
        Some(_) => Requester::Owner(OwnerRef::of_open(owner), seqid),
        None => Requester::Refused(Refusal::StaleClientId),
    }
}

/// The owner that a stateid names, by what it names, or by an open that it has closed by its kept request.
pub(crate) fn requester_of_target<'a>(
    tables: &'a Tables,
    stateid: Stateid,
    seqid: u32,
    target: Result<Option<Found<'a>>, Refusal>,
) -> Requester<'a>
    ensures requester { (journal : History) → Agrees journal tables.now.owners.owners
        → requester_seen result ≡ requester_of_target journal (state_of tables.now) stateid seqid
        (target_seen target.entry) }
    ensures refusal { IsOther (target_seen target.entry)
        → HasOtherRefusal (requester_seen result) }
{
    match target {
        Err(refusal) => Requester::Refused(refusal),
        Ok(found) => match found {
            Some(found) => requester_of_found(seqid, found),
            None => closer_of(tables, stateid, seqid),
        },
    }
}

// The owner of a state that was found. A delegation has none.
fn requester_of_found<'a>(seqid: u32, found: Found<'a>) -> Requester<'a>
    ensures requester { requester_seen result ≡ requester_of_found seqid (found_seen found.entry) }
    ensures refusal { HasOtherRefusal (requester_seen result) }
{
    match found {
        Found::AnOpen(found) => Requester::Owner(OwnerRef::of_open(&found.state.owner), seqid),
        Found::ALock(found) => Requester::Owner(OwnerRef::of_lock(&found.state.owner), seqid),
        Found::ADelegation(_) => Requester::Refused(Refusal::BadStateId),
    }
}

// The owner whose kept request closed the stateid's open.
fn closer_of(tables: &Tables, stateid: Stateid, seqid: u32) -> Requester<'_>
    ensures { requester_seen result
        ≡ stored_or_bad seqid (option_map (λ o. o.name)
        (find (λ o. summary_closes stateid.client stateid.number o.state.kept)
        tables.now.owners.owners)) }
{
    match tables.owners.closer_of(stateid.client, stateid.number) {
        Some(name) => Requester::Owner(name, seqid),
        None => Requester::Refused(Refusal::BadStateId),
    }
}

/// Whether the request is answered already, or goes on to its own rule.
pub(crate) fn sequence_of<'a>(
    store: &Store,
    request: &Request,
    requester: Requester<'a>,
) -> Result<SequenceStep<'a>, AllocError>
    requires kept { OwnersAgree store.now }
    requires refusal { HasOtherRefusal (requester_seen requester) }
    ensures sequence { IfOk result (λ s. IsSequence store.now.journal.history
        (state_of store.now.tables) (requester_seen requester.entry) request.now
        (sequence_seen s)) }
    ensures sendable { IfOk result (λ s. IsSendableSequence request.now.op (sequence_seen s)) }
    ensures passage { IfOk result (λ s. HasPassage (state_of store.now.tables) (sequence_seen s)) }
    ensures memory { OnErr result (HasAnswer (IsSequence store.now.journal.history
        (state_of store.now.tables) (requester_seen requester.entry) request.now)) }
{
    let (name, seqid) = match requester {
        Requester::Refused(refusal) => return Ok(refusal_to(&request.op, refusal)),
        Requester::Owner(name, seqid) => (name, seqid),
    };
    match store.tables.owners.find(name) {
        None => Ok(begin(request, name)),
        Some(known) => {
            let call = kept_call(&store.journal, known.number);
            resume(known, call, request, name, seqid)
        }
    }
}

// The request that the journal's entry with this number records, and the answer to it.
fn kept_call(journal: &Journal, number: u32) -> KeptCall<'_>
    requires { IsTrue (is_some (call_at journal.now.history number)) }
    ensures { IsCallAt journal.now.history number result }
{
    match journal.entry(number as usize) {
        Some(Entry::Call(call)) => KeptCall {
            op: &call.request.op,
            filehandle: call.request.filehandle,
            answer: &call.answer,
        },
        _ => unreachable!(),
    }
}

// A request of an owner that isn't known: only an OPEN goes on.
fn begin<'a>(request: &Request, name: OwnerRef<'a>) -> SequenceStep<'a>
    ensures sequence { IsOfUnknown (owner_seen name.entry) request.now (sequence_seen result) }
    ensures sendable { IsSendableSequence request.now.op (sequence_seen result) }
{
    if is_open(&request.op) {
        SequenceStep::GoesOn(Passage::Begins, name)
    } else {
        refusal_to(&request.op, Refusal::BadStateId)
    }
}

// A request of an owner of which this is known, and which keeps this call.
fn resume<'a>(
    known: &OwnerState,
    call: KeptCall<'_>,
    request: &Request,
    name: OwnerRef<'a>,
    seqid: u32,
) -> Result<SequenceStep<'a>, AllocError>
    requires { IsSendable call.op.now call.answer.now }
    ensures sequence { IfOk result (λ s. IsOfKnown
        (is_open request.now.op && not known.now.confirmed)
        (kept_seen known.now.kept call.entry) (owner_seen name.entry) seqid request.now
        (sequence_seen s)) }
    ensures sendable { IfOk result (λ s. IsSendableSequence request.now.op (sequence_seen s)) }
    ensures memory { OnErr result (HasAnswer (IsOfKnown
        (is_open request.now.op && not known.now.confirmed)
        (kept_seen known.now.kept call.entry) (owner_seen name.entry) seqid request.now)) }
{
    if is_open(&request.op) && !known.confirmed {
        restart(&known.kept, call, request, name, seqid)
    } else {
        judge(&known.kept, call, request, name, seqid)
    }
}

// The owner's next request goes on, its kept one again is answered as it was, and any other is NFS4ERR_BAD_SEQID.
fn judge<'a>(
    kept: &KeptSummary,
    call: KeptCall<'_>,
    request: &Request,
    name: OwnerRef<'a>,
    seqid: u32,
) -> Result<SequenceStep<'a>, AllocError>
    requires { IsSendable call.op.now call.answer.now }
    ensures sequence { IfOk result (λ s.
        IsJudged (kept_seen kept.now call.entry) (owner_seen name.entry) seqid request.now
        (sequence_seen s)) }
    ensures sendable { IfOk result (λ s. IsSendableSequence request.now.op (sequence_seen s)) }
    ensures memory { OnErr result (HasAnswer
        (IsJudged (kept_seen kept.now call.entry) (owner_seen name.entry) seqid request.now)) }
{
    match kept.judge(call, seqid, &request.op, request.filehandle) {
        Verdict::New => Ok(SequenceStep::GoesOn(Passage::Continues, name)),
        Verdict::Replay(answer) => Ok(SequenceStep::Answered(answer.clone()?)),
        Verdict::Bad => Ok(refusal_to(&request.op, Refusal::BadSeqId)),
    }
}

// An OPEN of an unconfirmed owner: the kept one again is answered as it was, and any other starts the owner anew.
fn restart<'a>(
    kept: &KeptSummary,
    call: KeptCall<'_>,
    request: &Request,
    name: OwnerRef<'a>,
    seqid: u32,
) -> Result<SequenceStep<'a>, AllocError>
    requires { IsSendable call.op.now call.answer.now }
    ensures sequence { IfOk result (λ s.
        IsRestart (kept_seen kept.now call.entry) (owner_seen name.entry) seqid request.now
        (sequence_seen s)) }
    ensures sendable { IfOk result (λ s. IsSendableSequence request.now.op (sequence_seen s)) }
    ensures memory { OnErr result (HasAnswer
        (IsRestart (kept_seen kept.now call.entry) (owner_seen name.entry) seqid request.now)) }
{
    match kept.judge(call, seqid, &request.op, request.filehandle) {
        Verdict::Replay(answer) => Ok(SequenceStep::Answered(answer.clone()?)),
        Verdict::New | Verdict::Bad => Ok(SequenceStep::GoesOn(Passage::Restarts, name)),
    }
}

// The operation is refused with this status.
fn refusal_to<'a>(op: &Op, refusal: Refusal) -> SequenceStep<'a>
    requires { refusal ≢ Refusal.Resource }
    ensures sequence { sequence_seen result ≡ refusal_to op.now refusal }
    ensures sendable { IsSendableSequence op.now (sequence_seen result) }
{
    SequenceStep::Answered(op.opnum().refusal(refusal))
}

fn is_open(op: &Op) -> bool
    ensures { result ≡ is_open op.now }
{
    matches!(op, Op::Open(_))
}
