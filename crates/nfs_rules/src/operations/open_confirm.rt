//! OPEN_CONFIRM: confirms an owner by its open.

ghost use Rattle.nfs_state.specs.Room.{state_of};
ghost use Rattle.nfs_state.specs.State.{History};
ghost use Rattle.nfs_state.specs.declared.request.Request.{Request};
ghost use Rattle.nfs_rules.specs.declared.passage.Passage.{Passage};
ghost use Rattle.nfs_rules.specs.Deciding.{ByOwnRule, IsTargetOf};
ghost use Rattle.nfs_rules.specs.Finding.{target_seen};
ghost use Rattle.nfs_rules.specs.operations.OpenConfirm.{own};
ghost use Rattle.nfs_xdr.specs.Names.{names_of};

use crate::demand::Demand;
use crate::ruling::Ruling;
use crate::stateids::{Found, is_confirmed, open_verdict};
use nfs_operations::open_confirm::OpenConfirm;
use nfs_state::{Change, Shortage, Tables};
use nfs_xdr::{Answer, Op, OpResult, Opnum, Refusal};

/// The own rule of OPEN_CONFIRM, under the current filehandle `node`, by what its stateid names.
pub(super) fn rule(
    tables: &Tables,
    node: u32,
    args: &OpenConfirm,
    target: Result<Option<Found<'_>>, Refusal>,
) -> Result<Ruling, Shortage>
    ensures { (journal : History) (request : Request) (passage : Passage)
        → IsTargetOf (names_of (Op.OpenConfirm args.now)) journal (state_of tables.now)
        (target_seen target.entry)
        → ByOwnRule (own journal (state_of tables.now) args.now request node passage)
        (state_of tables.now) (Op.OpenConfirm args.now) result }
{
    let found = match open_verdict(tables, Demand::any_open(node), args.stateid, target) {
        Err(refusal) => return Ok(Ruling::refusal(Opnum::OpenConfirm, refusal)),
        Ok(found) => found,
    };
    if is_confirmed(tables, &found.state.owner) {
        return Ok(Ruling::refusal(Opnum::OpenConfirm, Refusal::BadStateId));
    }
    Ok(Ruling {
        answer: OpResult::OpenConfirm(Answer::Done(found.state.next_stateid())),
        change: Change::Confirms {
            node: found.node,
            number: found.state.number,
            owner: found.state.owner.clone()?,
        },
    })
}
