//! DELEGRETURN: the client returns a delegation.

ghost use Rattle.std.specs.Prelude.{◌≡◌};
ghost use Rattle.nfs_rules.specs.Deciding.{Decides};
ghost use Rattle.nfs_rules.specs.Finding.{delegation_or_refusal_seen};
ghost use Rattle.nfs_rules.specs.operations.Delegreturn.{delegation_at, returning, rule};
ghost use Rattle.nfs_state.specs.Room.{state_of};

use crate::decision::Decision;
use crate::demand::Demand;
use crate::stateids::{FoundDelegation, delegation_verdict, target_of};
use nfs_operations::delegreturn::Delegreturn;
use nfs_state::{Change, Effect, Shortage, Store};
use nfs_xdr::{Answer, Op, OpResult, Refusal};

/// Decides a DELEGRETURN: its answer and its change.
pub(super) fn decide(
    store: &Store,
    filehandle: Option<u32>,
    args: &Delegreturn,
) -> Result<Decision, Shortage>
    ensures { Decides (λ d. d ≡ rule store.now.journal.history (state_of store.now.tables)
        filehandle args.now) (state_of store.now.tables) (Op.Delegreturn args.now) result }
{
    Ok(returning(delegation_at(store, filehandle, args)))
}

// The delegation that is given back goes.
fn returning(found: Result<FoundDelegation<'_>, Refusal>) -> Decision
    ensures { result ≡ returning (delegation_or_refusal_seen found.entry) }
{
    match found {
        Err(refusal) => Decision {
            answer: OpResult::Delegreturn(Answer::Refused(refusal)),
            effect: Effect::change_alone(Change::Nothing),
        },
        Ok(found) => Decision {
            answer: OpResult::Delegreturn(Answer::Done(())),
            effect: Effect::change_alone(Change::Returns {
                node: found.node,
                number: found.state.number,
            }),
        },
    }
}

// The delegation that is given back, or the first refusal.
fn delegation_at<'a>(
    store: &'a Store,
    filehandle: Option<u32>,
    args: &Delegreturn,
) -> Result<FoundDelegation<'a>, Refusal>
    ensures { delegation_or_refusal_seen result ≡ delegation_at store.now.journal.history
        (state_of store.now.tables) filehandle args.now }
{
    let node = filehandle.ok_or(Refusal::NoFileHandle)?;
    let target = target_of(&store.tables, store.journal.epoch(), args.stateid);
    delegation_verdict(
        &store.tables,
        Demand::delegation(node),
        args.stateid,
        target,
    )
}
