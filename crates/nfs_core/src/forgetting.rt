//! The end of what is kept for open owners that have no open.

ghost use Rattle.std.specs.Prelude.{◌≡◌, ◌≤◌, ◌↔◌, IfErr, IfOk, None, Ok, OnErr};
ghost use Rattle.nfs_core.specs.Events.{IsForgottenFrom, IsNotForgottenFor, IsWithoutRoomForOwner, NoneIsIdle, NoneIsIdleBefore};
ghost use Rattle.nfs_core.specs.Following.{StoreAgrees};
ghost use Rattle.nfs_core.specs.Forgetting.{IsFound};
ghost use Rattle.nfs_core.specs.Server.{AreAlike, server_of};
ghost use Rattle.nfs_owners.specs.StateOwner.{as_open_owner};
ghost use Rattle.nfs_rules.specs.entries.Forget.{NoneIdle, NoneIdleBefore};
ghost use Rattle.nfs_state.specs.Room.{state_of};
ghost use Rattle.nfs_state.specs.Store.{OwnersAgree};

use crate::committing::commit;
use crate::holdings::Holdings;
use crate::{CoreError, Forgotten};
use nfs_owners::Owner;
use nfs_rules::next_idle;
use nfs_state::{Change, Effect, Entry, Forget, Moment, Store};
use nfs_xdr::OpenOwner;
use std::alloc::{AllocError, Global};

/// An owner that may be forgotten, and the number of the entry that recorded it.
#[derive(Drop)]
pub(crate) struct IdleOwner {
    pub(crate) recorded: u32,
    pub(crate) owner: OpenOwner,
    /// A copy of the owner, for its removal.
    pub(crate) copy: OpenOwner,
}

/// Forgets the owner that may be forgotten and that the least entry recorded, and enters that in the journal. None that
/// an entry before this one recorded may be. What fails changes nothing but room, of which there isn't less.
pub(crate) fn forget_next(
    alloc: Global,
    held: &mut Holdings,
    entry: u32,
    now: Moment,
) -> Result<Option<Forgotten>, CoreError>
    requires store { StoreAgrees held.old.store }
    requires before { NoneIsIdleBefore entry (server_of held.old) now }
    ensures forgotten { IfOk result
        (IsForgottenFrom (server_of held.old) (server_of held.new) now) }
    ensures none { result ≡ Ok None ↔ NoneIsIdle (server_of held.old) now }
    ensures kept { OwnersAgree held.new.store }
    ensures error { IfErr result (IsNotForgottenFor (server_of held.old) now) }
    ensures same { OnErr result (AreAlike (server_of held.old) (server_of held.new)) }
    ensures room { OnErr result (held.old.store.journal.room ≤ held.new.store.journal.room) }
{
    match next_owner(alloc, &held.store, entry, now) {
        Ok(Some(idle)) => {
            let IdleOwner {
                recorded,
                owner,
                copy,
            } = idle;
            let effect = Effect::change_alone(Change::Forgets(copy));
            match commit(alloc, held, Entry::Forget(Forget { owner, now }), effect) {
                Ok(number) => Ok(Some(Forgotten { number, recorded })),
                Err(_) => Err(CoreError::Memory),
            }
        }
        Ok(None) => Ok(None),
        Err(error) => Err(error),
    }
}

// The owner that may be forgotten and that the least entry recorded, if there is one, where there is room for the entry
// of its end. None that an entry before this one recorded may be.
fn next_owner(
    alloc: Global,
    store: &Store,
    entry: u32,
    now: Moment,
) -> Result<Option<IdleOwner>, CoreError>
    requires before { NoneIdleBefore entry store.now.journal.history
        (state_of store.now.tables) now }
    ensures found { IfOk result
        (IsFound store.now.journal.history (state_of store.now.tables) now) }
    ensures some { OnErr result
        (NoneIdle store.now.journal.history (state_of store.now.tables) now → ⊥) }
    ensures error { IfErr result (IsWithoutRoomForOwner store.now.journal.history) }
{
    let Some(found) = next_idle(store, entry, now) else {
        return Ok(None);
    };
    if store.journal.is_full() {
        return Err(CoreError::Full);
    }
    match copies_of(alloc, found) {
        Ok((owner, copy)) => Ok(Some(IdleOwner {
            recorded: found.state.recorded,
            owner,
            copy,
        })),
        Err(_) => Err(CoreError::Memory),
    }
}

// Two copies of the owner's name.
fn copies_of(alloc: Global, owner: &Owner) -> Result<(OpenOwner, OpenOwner), AllocError>
    ensures { IfOk result (λ r.
        (r.0 ≡ as_open_owner owner.now.name) × (r.1 ≡ as_open_owner owner.now.name)) }
{
    let first = owner.name.as_ref().to_open_owner(alloc)?;
    match owner.name.as_ref().to_open_owner(alloc) {
        Ok(second) => Ok((first, second)),
        Err(refused) => {
            drop(first);
            Err(refused)
        }
    }
}
