//! The end of the delegation that is due.

ghost use Rattle.std.specs.Prelude.{◌≡◌, ◌≤◌, ◌↔◌, IfErr, IfOk, None, Ok, OnErr};
ghost use Rattle.nfs_core.specs.Events.{IsNotRevokedFor, IsRevoked, NoneIsDue};
ghost use Rattle.nfs_core.specs.Following.{StoreAgrees};
ghost use Rattle.nfs_core.specs.Server.{AreAlike, server_of};
ghost use Rattle.nfs_state.specs.Store.{OwnersAgree};

use crate::CoreError;
use crate::committing::commit;
use crate::holdings::Holdings;
use nfs_rules::next_due;
use nfs_state::{Change, Effect, Entry, Moment, Revoke};
use std::alloc::Global;

/// Takes away the delegation that is due and has the least number, if one is due. Enters that in the journal, and
/// returns the number. What fails changes nothing but room, of which there isn't less.
pub(crate) fn revoke_next(
    alloc: Global,
    held: &mut Holdings,
    now: Moment,
) -> Result<Option<u32>, CoreError>
    requires { StoreAgrees held.old.store }
    ensures revoked { IfOk result (IsRevoked (server_of held.old) (server_of held.new) now) }
    ensures none { result ≡ Ok None ↔ NoneIsDue (server_of held.old) now }
    ensures kept { OwnersAgree held.new.store }
    ensures error { IfErr result (IsNotRevokedFor (server_of held.old) now) }
    ensures same { OnErr result (AreAlike (server_of held.old) (server_of held.new)) }
    ensures room { OnErr result (held.old.store.journal.room ≤ held.new.store.journal.room) }
{
    let Some(due) = next_due(&held.store, now) else {
        return Ok(None);
    };
    if held.store.journal.is_full() {
        return Err(CoreError::Full);
    }
    let number = due.state.number;
    let node = due.node;
    let effect = Effect::change_alone(Change::Returns { node, number });
    match commit(alloc, held, Entry::Revoke(Revoke { number, now }), effect) {
        Ok(_) => Ok(Some(number)),
        Err(_) => Err(CoreError::Memory),
    }
}
