//! CLOSE: frees an open with its lock states, or refuses if locked bytes are held under the open.

ghost use Rattle.std.specs.Prelude.{◌≡◌, Ok, if◌then◌else◌, Err};
ghost use Rattle.nfs_state.specs.Room.{state_of};
ghost use Rattle.nfs_state.specs.State.{History};
ghost use Rattle.nfs_state.specs.declared.request.Request.{Request};
ghost use Rattle.nfs_rules.specs.declared.passage.Passage.{Passage};
ghost use Rattle.nfs_rules.specs.Deciding.{ByOwnRule, IsTargetOf};
ghost use Rattle.nfs_rules.specs.Finding.{target_seen};
ghost use Rattle.nfs_share.specs.OpenFound.{open_seen};
ghost use Rattle.nfs_rules.specs.operations.Close.{closing, own, unless_held};
ghost use Rattle.nfs_xdr.specs.Names.{names_of};

use crate::demand::Demand;
use crate::ruling::Ruling;
use crate::stateids::{Found, open_verdict};
use nfs_operations::close::Close;
use nfs_share::OpenFound;
use nfs_state::{Change, Tables};
use nfs_tree::CloseLocks;
use nfs_xdr::{Answer, Op, OpResult, Opnum, Refusal};

/// The own rule of CLOSE, under the current filehandle `node`, by what its stateid names and by the policy.
pub(super) fn rule(
    tables: &Tables,
    node: u32,
    args: &Close,
    policy: CloseLocks,
    target: Result<Option<Found<'_>>, Refusal>,
) -> Ruling
    ensures { (journal : History) (request : Request) (passage : Passage)
        → journal.policy.close_locks ≡ policy
        → IsTargetOf (names_of (Op.Close args.now)) journal (state_of tables.now)
        (target_seen target.entry)
        → ByOwnRule (own journal (state_of tables.now) args.now request node passage)
        (state_of tables.now) (Op.Close args.now) (Ok result) }
{
    match open_verdict(tables, Demand::confirmed_open(node), args.stateid, target) {
        Err(refusal) => Ruling::refusal(Opnum::Close, refusal),
        Ok(found) => closing(tables, policy, found),
    }
}

// Frees the open that was found, unless bytes that are locked under it are in the way.
fn closing(tables: &Tables, policy: CloseLocks, found: OpenFound<'_>) -> Ruling
    ensures { result ≡ closing (unless_held policy (state_of tables.now) (open_seen found.entry)) }
{
    if is_held(tables, policy, found) {
        return Ruling::refusal(Opnum::Close, Refusal::LocksHeld);
    }
    Ruling {
        answer: OpResult::Close(Answer::Done(found.state.next_stateid())),
        change: Change::Closes {
            node: found.node,
            number: found.state.number,
        },
    }
}

// Whether bytes that are locked under the open are in the way of its CLOSE.
fn is_held(tables: &Tables, policy: CloseLocks, found: OpenFound<'_>) -> bool
    ensures { unless_held policy (state_of tables.now) (open_seen found.entry)
        ≡ (if result then Err Refusal.LocksHeld else Ok (open_seen found.entry)) }
{
    match policy {
        CloseLocks::Free => false,
        CloseLocks::Refuse => tables.locks.holds_under(found.node, found.state.number),
    }
}
