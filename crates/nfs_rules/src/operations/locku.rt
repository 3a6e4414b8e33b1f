//! LOCKU: an owner gives up bytes.

ghost use Rattle.std.specs.Prelude.{◌≡◌, Some};
ghost use Rattle.nfs_locks.specs.LockFound.{lock_found_seen};
ghost use Rattle.nfs_operations.specs.declared.locku.Locku.{Locku};
ghost use Rattle.nfs_rules.specs.Deciding.{ByOwnRule, IsTargetOf};
ghost use Rattle.nfs_rules.specs.Finding.{target_seen};
ghost use Rattle.nfs_rules.specs.declared.passage.Passage.{Passage};
ghost use Rattle.nfs_rules.specs.operations.Locku.{own, unlocking};
ghost use Rattle.nfs_state.specs.Room.{state_of};
ghost use Rattle.nfs_state.specs.State.{History};
ghost use Rattle.nfs_state.specs.declared.request.Request.{Request};
ghost use Rattle.nfs_xdr.specs.Names.{names_of};

use crate::demand::Demand;
use crate::locking::unlock_of_bytes;
use crate::ruling::Ruling;
use crate::stateids::{Found, lock_verdict};
use nfs_locks::LockFound;
use nfs_operations::locku::Locku;
use nfs_ranges::{Range, range_of};
use nfs_state::{Change, Shortage, Tables};
use nfs_xdr::{Answer, Op, OpResult, Opnum, Refusal};

/// The own rule of LOCKU, under the current filehandle `node`, by what its stateid names.
pub(super) fn rule(
    tables: &Tables,
    node: u32,
    args: &Locku,
    target: Result<Option<Found<'_>>, Refusal>,
) -> Result<Ruling, Shortage>
    ensures { (journal : History) (request : Request) (passage : Passage)
        → IsTargetOf (names_of (Op.Locku args.now)) journal (state_of tables.now)
        (target_seen target.entry)
        → ByOwnRule (own journal (state_of tables.now) args.now request node passage)
        (state_of tables.now) (Op.Locku args.now) result }
{
    match lock_verdict(tables, Demand::lock_state(node), args.stateid, target) {
        Err(refusal) => Ok(Ruling::refusal(Opnum::Locku, refusal)),
        Ok(found) => match range_of(args.offset, args.length) {
            None => Ok(Ruling::refusal(Opnum::Locku, Refusal::Inval)),
            Some(range) => unlock(tables, found, range),
        },
    }
}

// Frees the bytes, unless the runs of the lock state would be too many.
fn unlock(tables: &Tables, found: LockFound<'_>, range: Range) -> Result<Ruling, Shortage>
    ensures { (args : Locku) → ByOwnRule (λ ruling. ruling
        ≡ unlocking (state_of tables.now) (lock_found_seen found.entry) (Some range))
        (state_of tables.now) (Op.Locku args) result }
{
    let LockFound { node, state } = found;
    let change = unlock_of_bytes(range);
    if tables.locks.is_full_for(node, state.number, change) {
        return Err(Shortage::Limit);
    }
    Ok(Ruling {
        answer: OpResult::Locku(Answer::Done(state.next_stateid())),
        change: Change::Locks {
            node,
            number: state.number,
            change,
        },
    })
}
