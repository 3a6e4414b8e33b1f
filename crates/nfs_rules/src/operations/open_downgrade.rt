//! OPEN_DOWNGRADE: an open keeps some of its shares.

ghost use Rattle.std.specs.Prelude.{Ok};
ghost use Rattle.nfs_state.specs.Room.{state_of};
ghost use Rattle.nfs_state.specs.State.{History};
ghost use Rattle.nfs_state.specs.declared.request.Request.{Request};
ghost use Rattle.nfs_rules.specs.declared.passage.Passage.{Passage};
ghost use Rattle.nfs_rules.specs.Deciding.{ByOwnRule, IsTargetOf};
ghost use Rattle.nfs_rules.specs.Finding.{target_seen};
ghost use Rattle.nfs_rules.specs.operations.OpenDowngrade.{own};
ghost use Rattle.nfs_xdr.specs.Names.{names_of};

use crate::demand::Demand;
use crate::ruling::Ruling;
use crate::stateids::{Found, open_verdict};
use nfs_operations::open_downgrade::OpenDowngrade;
use nfs_share::Share;
use nfs_state::{Change, Tables};
use nfs_xdr::{Answer, Op, OpResult, Opnum, Refusal};

/// The own rule of OPEN_DOWNGRADE, under the current filehandle `node`, by what its stateid names.
pub(super) fn rule(
    tables: &Tables,
    node: u32,
    args: &OpenDowngrade,
    target: Result<Option<Found<'_>>, Refusal>,
) -> Ruling
    ensures { (journal : History) (request : Request) (passage : Passage)
        → IsTargetOf (names_of (Op.OpenDowngrade args.now)) journal (state_of tables.now)
        (target_seen target.entry)
        → ByOwnRule (own journal (state_of tables.now) args.now request node passage)
        (state_of tables.now) (Op.OpenDowngrade args.now) (Ok result) }
{
    let demand = Demand::confirmed_open(node);
    let found = match open_verdict(tables, demand, args.stateid, target) {
        Err(refusal) => return Ruling::refusal(Opnum::OpenDowngrade, refusal),
        Ok(found) => found,
    };
    match Share::from_numbers(args.access, args.deny) {
        Some(share) if found.state.shares.can_downgrade_to(share) => Ruling {
            answer: OpResult::OpenDowngrade(Answer::Done(found.state.next_stateid())),
            change: Change::Downgrades {
                node: found.node,
                number: found.state.number,
                share,
            },
        },
        _ => Ruling::refusal(Opnum::OpenDowngrade, Refusal::Inval),
    }
}
