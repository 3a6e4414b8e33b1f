//! Commits an entry with the recalls that it makes.

ghost use Rattle.std.specs.Prelude.{◌≡◌, ◌<◌, ◌≤◌, IfErr, IfOk, IsOk, OnErr, length};
ghost use Rattle.nfs_core.specs.Following.{IsNext, StoreAgrees};
ghost use Rattle.nfs_core.specs.Recalls as recalls_made;
ghost use Rattle.nfs_core.specs.Recalls.{CallsNothingBack, left_of};
ghost use Rattle.nfs_core.specs.Server.{AreAlike, Enters, server_of};
ghost use Rattle.nfs_state.specs.Room.{TakesNoMemory, state_of};
ghost use Rattle.nfs_state.specs.Store.{OwnersAgree};

use crate::holdings::Holdings;
use crate::pending_recalls::PendingRecalls;
use crate::recalling::recalls_by;
use nfs_rpc::Recall;
use nfs_state::{Change, Effect, Entry, Shortage, Store, commit_entry};
use std::alloc::{AllocError, Global};

/// Enters the entry, which may come next with this effect, and returns its number. The recalls that it makes come to
/// those that nobody took yet. Fails for want of memory alone, and changes nothing then but room, of which there isn't
/// less.
pub(crate) fn commit(
    alloc: Global,
    held: &mut Holdings,
    entry: Entry,
    effect: Effect,
) -> Result<u32, Shortage>
    requires next { IsNext held.old.store.journal.history (state_of held.old.store.tables)
        entry effect }
    requires stored { StoreAgrees held.old.store }
    ensures entered { IfOk result (λ number.
        (enters : Enters (server_of held.old) (server_of held.new) entry number)
        × (enters.2.effect ≡ effect)) }
    ensures kept { OwnersAgree held.new.store }
    ensures memory { IfErr result (λ e. e ≡ Shortage.Memory) }
    ensures ready { 0 < held.old.store.journal.room
        → TakesNoMemory entry effect held.old.store.tables
        → CallsNothingBack effect.change → IsOk result }
    ensures same { OnErr result (AreAlike (server_of held.old) (server_of held.new)) }
    ensures room { OnErr result (held.old.store.journal.room ≤ held.new.store.journal.room) }
{
    match make_recalls(alloc, &held.store, &mut held.recalls, &effect.change) {
        Ok(recalls) => {
            let number = commit_entry(alloc, &mut held.store, entry, effect)?;
            held.recalls.append_reserved(recalls);
            Ok(number)
        }
        Err(_) => {
            drop(entry);
            drop(effect);
            Err(Shortage::Memory)
        }
    }
}

// The recalls that the change makes in what is stored, with room for them among those that nobody took yet.
fn make_recalls(
    alloc: Global,
    store: &Store,
    pending: &mut PendingRecalls,
    change: &Change,
) -> Result<Vec<Recall>, AllocError>
    ensures recalls { IfOk result (λ recalls.
        recalls.items ≡ recalls_made.recalls_by change.now (state_of store.now.tables)) }
    ensures room { IfOk result (λ recalls. length recalls.items ≤ pending.new.room) }
    ensures ready { CallsNothingBack change.now → IsOk result }
    ensures same { left_of pending.new ≡ left_of pending.old }
{
    let recalls = recalls_by(alloc, store, change)?;
    pending.reserve(recalls.len())?;
    Ok(recalls)
}
