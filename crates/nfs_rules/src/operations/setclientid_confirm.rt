//! SETCLIENTID_CONFIRM: confirms a client, by the rule of `nfs_owners`.

ghost use Rattle.std.specs.Prelude.{◌≡◌};
ghost use Rattle.nfs_rules.specs.operations.SetclientidConfirm.{path_of, rule};
ghost use Rattle.nfs_rules.specs.Deciding.{Decides};
ghost use Rattle.nfs_state.specs.Room.{state_of};

use crate::decision::Decision;
use nfs_operations::setclientid_confirm::SetclientidConfirm;
use nfs_owners::PathMark;
use nfs_state::{Change, Effect, Request, Shortage, Store};
use nfs_tree::Callbacks;
use nfs_xdr::{Op, OpResult};
use std::alloc::Global;

/// Decides a SETCLIENTID_CONFIRM: its answer and its change.
pub(super) fn decide(
    alloc: Global,
    store: &Store,
    request: &Request,
    args: &SetclientidConfirm,
) -> Result<Decision, Shortage>
    ensures { Decides (λ d. d
        ≡ rule store.now.journal.history (state_of store.now.tables) request.now args.now)
        (state_of store.now.tables) (Op.SetclientidConfirm args.now) result }
{
    let tables = &store.tables;
    let has_state = tables.record_has_state(tables.clients.holder_of(args));
    let path = path_of(store.journal.policy().callbacks);
    let (answer, change) = tables
        .clients
        .confirm(alloc, request.principal, args, has_state, path)?;
    Ok(Decision {
        answer: OpResult::SetclientidConfirm(answer),
        effect: Effect::change_alone(Change::Clients(change)),
    })
}

// The mark for the path of a client that is confirmed by this call.
fn path_of(callbacks: Callbacks) -> PathMark
    ensures { result ≡ path_of callbacks }
{
    match callbacks {
        Callbacks::Probe => PathMark::Unknown,
        Callbacks::Assume => PathMark::Up,
    }
}
