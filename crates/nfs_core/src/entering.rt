//! What happens without a call, and its entry in the journal.

ghost use Rattle.std.specs.Prelude.{◌≡◌, ◌≤◌, Err, IfErr, IfOk, OnErr};
ghost use Rattle.nfs_core.specs.Events.{IsForget, IsNotEntered, IsNotRuled, entry_by};
ghost use Rattle.nfs_core.specs.Following.{IsNext, StoreAgrees};
ghost use Rattle.nfs_core.specs.Server.{AreAlike, Enters, server_of};
ghost use Rattle.nfs_core.specs.Step.{Allows};
ghost use Rattle.nfs_state.specs.Room.{state_of};
ghost use Rattle.nfs_state.specs.Store.{OwnersAgree};

use crate::committing::commit;
use crate::holdings::Holdings;
use crate::{CoreError, Event};
use nfs_rules::{expire, forget, mark_path, revoke};
use nfs_state::Effect;
use std::alloc::Global;

/// Enters the event in the journal, if it may come next, and returns the entry's number. What fails changes nothing but
/// room, of which there isn't less.
pub(crate) fn enter_event(
    alloc: Global,
    held: &mut Holdings,
    event: Event,
) -> Result<u32, CoreError>
    requires { StoreAgrees held.old.store }
    ensures entered { IfOk result (λ number. Enters (server_of held.old) (server_of held.new)
        (entry_by event) number) }
    ensures kept { OwnersAgree held.new.store }
    ensures error { IfErr result (IsNotEntered (server_of held.old) event) }
    ensures same { OnErr result (AreAlike (server_of held.old) (server_of held.new)) }
    ensures room { OnErr result (held.old.store.journal.room ≤ held.new.store.journal.room) }
{
    match effect_of(alloc, held, &event) {
        Ok(effect) => match commit(alloc, held, event.into_entry(), effect) {
            Ok(number) => Ok(number),
            Err(_) => Err(CoreError::Memory),
        },
        Err(error) => {
            drop(event);
            Err(error)
        }
    }
}

// The effect of the event, if it may come next.
fn effect_of(alloc: Global, held: &Holdings, event: &Event) -> Result<Effect, CoreError>
    ensures next { IfOk result (λ effect. IsNext held.now.store.journal.history
        (state_of held.now.store.tables) (entry_by event.now) effect) }
    ensures error { IfErr result (IsNotEntered (server_of held.now) event.now) }
    ensures memory { result ≡ Err CoreError.Memory → IsForget event.now }
{
    match ruled_effect(alloc, held, event) {
        Ok(effect) => {
            if held.store.journal.is_full() {
                drop(effect);
                return Err(CoreError::Full);
            }
            Ok(effect)
        }
        Err(CoreError::Memory) if held.store.journal.is_full() => Err(CoreError::Full),
        Err(error) => Err(error),
    }
}

// The effect that the rule of its kind gives the event.
fn ruled_effect(alloc: Global, held: &Holdings, event: &Event) -> Result<Effect, CoreError>
    ensures allowed { IfOk result (λ effect. Allows held.now.store.journal.history
        (state_of held.now.store.tables) (entry_by event.now) effect) }
    ensures refused { IfErr result (IsNotRuled (server_of held.now) event.now) }
{
    let store = &held.store;
    match event {
        Event::Expire(event) => Ok(expire(store, event)?),
        Event::Revoke(event) => revoke(store, event).ok_or(CoreError::NotDue),
        Event::Path(event) => mark_path(store, event).ok_or(CoreError::NotLive),
        Event::Forget(event) => Ok(forget(alloc, store, event)?),
    }
}
