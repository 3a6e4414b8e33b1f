//! RELEASE_LOCKOWNER: forgets a lock owner that holds no bytes.

ghost use Rattle.std.specs.Prelude.{◌≡◌};
ghost use Rattle.nfs_rules.specs.Deciding.{Decides};
ghost use Rattle.nfs_rules.specs.operations.ReleaseLockowner.{refusal_of, rule};
ghost use Rattle.nfs_state.specs.Room.{state_of};

use crate::decision::Decision;
use nfs_operations::release_lockowner::ReleaseLockowner;
use nfs_state::{Change, Effect, Shortage, Tables};
use nfs_xdr::{Answer, Op, OpResult, Refusal};

/// Decides a RELEASE_LOCKOWNER: its answer and its change.
pub(super) fn decide(tables: &Tables, args: &ReleaseLockowner) -> Result<Decision, Shortage>
    ensures { Decides (λ d. d ≡ rule (state_of tables.now) args.now) (state_of tables.now)
        (Op.ReleaseLockowner args.now) result }
{
    if tables.clients.of(args.owner.client).is_none() {
        return Ok(refusal_decision(Refusal::StaleClientId));
    }
    if tables.locks.holds(&args.owner) {
        return Ok(refusal_decision(Refusal::LocksHeld));
    }
    Ok(Decision {
        answer: OpResult::ReleaseLockowner(Answer::Done(())),
        effect: Effect::change_alone(Change::Releases {
            owner: args.owner.clone()?,
        }),
    })
}

fn refusal_decision(refusal: Refusal) -> Decision
    ensures { result ≡ refusal_of refusal }
{
    Decision {
        answer: OpResult::ReleaseLockowner(Answer::Refused(refusal)),
        effect: Effect::change_alone(Change::Nothing),
    }
}
