//! The frame of the operations that go by the sequence id of an owner (RFC 7530, sections 9.1.7 to 9.1.11).

ghost use Rattle.std.specs.Prelude.{◌≡◌, ◌<◌, ◌-◌, ◌^◌, IfOk, IsTrue};
ghost use Rattle.nfs_rules.specs.Deciding.{ByOwnRule, Decides, HasOtherRefusal, IsPassageOf, IsRequesterOf, IsTargetOf};
ghost use Rattle.nfs_owners.specs.StateOwner.{owner_seen};
ghost use Rattle.nfs_rules.specs.Finding.{newcomer_seen, requester_seen, target_seen};
ghost use Rattle.nfs_state.specs.Room.{state_of};
ghost use Rattle.nfs_state.specs.Store.{OwnersAgree};
ghost use Rattle.nfs_rules.specs.Sequences.{IsSequenced, decision_of, counts, kept_with, only, owner_change_of};
ghost use Rattle.nfs_xdr.specs.Names.{is_sequenced, names_of};
ghost use Rattle.nfs_rules.specs.operations.{own_of};

use super::{close, lock, locku, open, open_confirm, open_downgrade};
use crate::decision::Decision;
use crate::newcomer::{Newcomer, newcomer_of};
use crate::passage::Passage;
use crate::ruling::Ruling;
use crate::sequence::{Requester, SequenceStep, sequence_of};
use crate::stateids::Found;
use crate::turn::Turn;
use nfs_owners::OwnerRef;
use nfs_state::{Change, Effect, OwnerChange, Request, Shortage, Store};
use nfs_xdr::{Op, OpResult, Refusal, Status};
use std::alloc::{AllocError, Global};

/// Decides a sequenced operation of this requester, whose stateid, if it has one, names this target: the filehandle,
/// the owner and its sequence id come before the operation's own rule.
pub(super) fn decide(
    alloc: Global,
    store: &Store,
    request: &Request,
    requester: Requester<'_>,
    target: Result<Option<Found<'_>>, Refusal>,
) -> Result<Decision, Shortage>
    requires refusal { HasOtherRefusal (requester_seen requester) }
    requires target { IsTargetOf (names_of request.now.op) store.now.journal.history
        (state_of store.now.tables) (target_seen target) }
    requires sequenced { IsTrue (is_sequenced request.now.op) }
    requires states { store.now.tables.numbers < 2 ^ 32 - 2 }
    requires kept { OwnersAgree store.now }
    requires owner { IsRequesterOf request.now.op (requester_seen requester) }
    ensures { Decides (IsSequenced store.now.journal.history (state_of store.now.tables)
        (requester_seen requester.entry)
        (own_of request.now.op store.now.journal.history (state_of store.now.tables))
        request.now) (state_of store.now.tables) request.now.op result }
{
    let Some(node) = request.filehandle else {
        return Ok(answer_alone(request.op.opnum().refusal(Refusal::NoFileHandle)));
    };
    match sequence_of(store, request, requester)? {
        SequenceStep::Answered(answer) => Ok(answer_alone(answer)),
        SequenceStep::GoesOn(passage, name) => {
            let turn = Turn {
                node,
                passage,
                target,
            };
            let ruling = rule(alloc, store, request, turn)?;
            let newcomer = newcomer_of(&store.tables, name.client, &request.op);
            Ok(decision_of(alloc, passage, name, newcomer, ruling)?)
        }
    }
}

// An answer without the operation's own rule. It changes nothing.
fn answer_alone(answer: OpResult) -> Decision
    ensures { result ≡ only answer }
{
    Decision {
        answer,
        effect: Effect::change_alone(Change::Nothing),
    }
}

// The operation's own rule.
fn rule(alloc: Global, store: &Store, request: &Request, turn: Turn<'_>) -> Result<Ruling, Shortage>
    requires sequenced { IsTrue (is_sequenced request.now.op) }
    requires states { store.now.tables.numbers < 2 ^ 32 - 2 }
    requires kept { OwnersAgree store.now }
    requires passage { IsPassageOf request.now.op turn.passage (state_of store.now.tables) }
    requires target { IsTargetOf (names_of request.now.op) store.now.journal.history
        (state_of store.now.tables) (target_seen turn.target) }
    ensures { ByOwnRule (own_of request.now.op store.now.journal.history
        (state_of store.now.tables) request.now turn.entry.node turn.entry.passage)
        (state_of store.now.tables) request.now.op result }
{
    let Turn {
        node,
        passage,
        target,
    } = turn;
    match &request.op {
        Op::Open(args) => open::rule(alloc, store, node, passage, args, request.moment),
        Op::OpenConfirm(args) => open_confirm::rule(&store.tables, node, args, target),
        Op::OpenDowngrade(args) => Ok(open_downgrade::rule(&store.tables, node, args, target)),
        Op::Close(args) => {
            let policy = store.journal.policy().close_locks;
            Ok(close::rule(&store.tables, node, args, policy, target))
        }
        Op::Lock(args) => lock::rule(&store.tables, node, args, target),
        Op::Locku(args) => locku::rule(&store.tables, node, args, target),
        _ => unreachable!(),
    }
}

// The ruling, and what its answer means for the owners.
fn decision_of(
    alloc: Global,
    passage: Passage,
    name: OwnerRef<'_>,
    newcomer: Newcomer<'_>,
    ruling: Ruling,
) -> Result<Decision, AllocError>
    ensures { IfOk result (λ d. d ≡ decision_of passage (owner_seen name.entry)
        (newcomer_seen newcomer.entry) ruling) }
{
    match owner_change_of(alloc, passage, name, newcomer, ruling.answer.status()) {
        Ok(owner) => Ok(Decision {
            answer: ruling.answer,
            effect: Effect {
                owner,
                change: ruling.change,
            },
        }),
        Err(refused) => {
            drop(ruling);
            Err(refused)
        }
    }
}

// What an answer with this status means for the owner of the request, and for the lock owner that it introduces.
fn owner_change_of(
    alloc: Global,
    passage: Passage,
    name: OwnerRef<'_>,
    newcomer: Newcomer<'_>,
    status: Status,
) -> Result<OwnerChange, AllocError>
    ensures { IfOk result (λ c. c ≡ owner_change_of passage (owner_seen name.entry)
        (newcomer_seen newcomer.entry) status) }
{
    Ok(match passage {
        Passage::Continues if counts(status) => kept_with(alloc, name, newcomer, status)?,
        Passage::Begins if status == Status::Ok => OwnerChange::Records {
            owner: name.to_open_owner(alloc)?,
            confirmed: false,
        },
        Passage::Restarts if status == Status::Ok => OwnerChange::Restarts {
            owner: name.to_open_owner(alloc)?,
            confirmed: false,
        },
        Passage::Restarts => OwnerChange::Drops(name.to_open_owner(alloc)?),
        _ => OwnerChange::Nothing,
    })
}

// What an answer that counts means for the two.
fn kept_with(
    alloc: Global,
    name: OwnerRef<'_>,
    newcomer: Newcomer<'_>,
    status: Status,
) -> Result<OwnerChange, AllocError>
    ensures { IfOk result (λ c. c ≡ kept_with (owner_seen name.entry)
        (newcomer_seen newcomer.entry) status) }
{
    let owner = name.to_owned(alloc)?;
    Ok(match newcomer {
        Newcomer::Known(newcomer) => {
            OwnerChange::KeepsBoth(owner, OwnerRef::of_lock(newcomer).to_owned(alloc)?)
        }
        Newcomer::Unknown(newcomer) if status == Status::Ok => {
            OwnerChange::Introduces(owner, OwnerRef::of_lock(newcomer).to_owned(alloc)?)
        }
        _ => OwnerChange::Keeps(owner),
    })
}

// Whether an answer with this status moves the owner's sequence id on (RFC 7530, section 9.1.7).
fn counts(status: Status) -> bool
    ensures { result ≡ counts status }
{
    !matches!(
        status,
        Status::Refused(
            Refusal::StaleClientId
                | Refusal::StaleStateId
                | Refusal::BadStateId
                | Refusal::BadSeqId
                | Refusal::BadXdr
                | Refusal::Resource
                | Refusal::NoFileHandle
        )
    )
}
