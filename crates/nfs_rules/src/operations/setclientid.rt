//! SETCLIENTID: introduces a client, by the rule of `nfs_owners`.

ghost use Rattle.std.specs.Prelude.{◌≡◌, ◌-◌, ◌^◌, ◌<◌};
ghost use Rattle.nfs_rules.specs.operations.Setclientid.{rule};
ghost use Rattle.nfs_rules.specs.Deciding.{Decides};
ghost use Rattle.nfs_state.specs.Room.{state_of};

use crate::decision::Decision;
use nfs_operations::setclientid::Setclientid;
use nfs_state::{Change, Effect, Request, Shortage, Store};
use nfs_xdr::{Op, OpResult};

/// Decides a SETCLIENTID: its answer and its change.
pub(super) fn decide(
    store: &Store,
    request: &Request,
    args: &Setclientid,
) -> Result<Decision, Shortage>
    requires { store.now.tables.clients.registry.last_confirm < 2 ^ 64 - 1 }
    ensures { Decides (λ d. d
        ≡ rule store.now.journal.history (state_of store.now.tables) request.now args.now)
        (state_of store.now.tables) (Op.Setclientid args.now) result }
{
    let tables = &store.tables;
    let has_state = tables.record_has_state(tables.clients.confirmed_of(args.id.as_slice()));
    let (answer, change) = tables
        .clients
        .set(store.journal.epoch(), request.principal, args, has_state)?;
    Ok(Decision {
        answer: OpResult::Setclientid(answer),
        effect: Effect::change_alone(Change::Clients(change)),
    })
}
