//! Commits an entry: takes all memory first, then changes the tables and the journal.

ghost use Rattle.std.specs.Prelude.{◌≡◌, ◌<◌, ◌≤◌, IfErr, IfOk, IsOk, OnErr, OnOk, length};
ghost use Rattle.nfs_owners.specs.Owners.{AreBefore};
ghost use Rattle.nfs_state.specs.Changes.{after};
ghost use Rattle.nfs_state.specs.Entries.{with_entry};
ghost use Rattle.nfs_state.specs.Files.{CanChange};
ghost use Rattle.nfs_state.specs.Kept.{Agrees, kept_in, owners_after, update_by};
ghost use Rattle.nfs_state.specs.MemoryCount.{IsNoCall};
ghost use Rattle.nfs_state.specs.Room.{Fits, HasGivenNumbers, HasOwnerRoom, HasRoom, TakesNoMemory, state_of};
ghost use Rattle.nfs_state.specs.State.{History};
ghost use Rattle.nfs_state.specs.Store.{HoldTheSame, OwnersAgree};

use crate::effect::Effect;
use crate::entry::{Entry, JOURNAL_LIMIT};
use crate::owner_update::OwnerUpdate;
use crate::shortage::Shortage;
use crate::store::Store;
use crate::tables::Tables;
use std::alloc::Global;

/// Makes room for the entry and for its effect, then changes the tables by the effect and adds the entry to the
/// journal, under the number that is returned. Fails for want of memory alone, and changes nothing then. Where there is
/// room, it takes no memory.
pub fn commit_entry(
    alloc: Global,
    store: &mut Store,
    entry: Entry,
    effect: Effect,
) -> Result<u32, Shortage>
    requires below { length store.old.journal.history.entries < JOURNAL_LIMIT }
    requires fits { Fits entry effect (state_of store.old.tables) }
    requires given { HasGivenNumbers (state_of store.old.tables) }
    requires changes { CanChange (state_of store.old.tables).files }
    requires kept { OwnersAgree store.old }
    ensures number { IfOk result (λ n. n ≡ length store.old.journal.history.entries) }
    ensures entry { OnOk result
        (store.new.journal.history ≡ with_entry entry store.old.journal.history) }
    ensures state { OnOk result (state_of store.new.tables
        ≡ after (length store.old.journal.history.entries) effect (state_of store.old.tables)) }
    ensures kept { OnOk result (OwnersAgree store.new) }
    ensures memory { IfErr result (λ e. e ≡ Shortage.Memory) }
    ensures ready { 0 < store.old.journal.room → TakesNoMemory entry effect store.old.tables
        → IsOk result }
    ensures same { OnErr result (HoldTheSame store.old store.new) }
    ensures room { OnErr result (store.old.journal.room ≤ store.new.journal.room) }
{
    match make_ready(alloc, store, &entry, &effect) {
        Ok(()) => {
            let number = store.journal.len() as u32;
            make_changes(&mut store.tables, &entry, effect, number);
            Ok(store.journal.push(entry))
        }
        Err(shortage) => {
            drop(entry);
            drop(effect);
            Err(shortage)
        }
    }
}

// Makes room for the entry and for its effect. Fails for want of memory alone, and never where there is room already.
fn make_ready(
    alloc: Global,
    store: &mut Store,
    entry: &Entry,
    effect: &Effect,
) -> Result<(), Shortage>
    requires fits { Fits entry.now effect.now (state_of store.old.tables) }
    ensures same { HoldTheSame store.old store.new }
    ensures grows { store.old.journal.room ≤ store.new.journal.room }
    ensures room { OnOk result (0 < store.new.journal.room) }
    ensures tables_room { OnOk result (HasRoom effect.now.change store.new.tables
        × HasOwnerRoom effect.now.owner store.new.tables) }
    ensures ready { 0 < store.old.journal.room
        → HasOwnerRoom effect.now.owner store.old.tables
        → HasRoom effect.now.change store.old.tables
        → IsNoCall entry.now → IsOk result }
    ensures memory { IfErr result (λ e. e ≡ Shortage.Memory) }
{
    if !store.journal.has_memory_for(entry) {
        return Err(Shortage::Memory);
    }
    store.journal.reserve()?;
    if effect.is_nothing() {
        return Ok(());
    }
    store.tables.make_room(alloc, &effect.change, &effect.owner)
}

// Makes the changes of the entry, which gets this number, for which there is room. It takes no memory.
fn make_changes(tables: &mut Tables, entry: &Entry, effect: Effect, number: u32)
    requires fits { Fits entry.now effect (state_of tables.old) }
    requires room { HasRoom effect.change tables.old
        × HasOwnerRoom effect.owner tables.old }
    requires given { HasGivenNumbers (state_of tables.old) }
    requires changes { CanChange (state_of tables.old).files }
    requires newest { AreBefore number tables.old.owners.owners }
    ensures state { state_of tables.new ≡ after number effect (state_of tables.old) }
    ensures kept { (journal : History) → Agrees journal (owners_after
        (update_by effect.owner (kept_in entry.now)) number tables.old.owners.owners)
        → Agrees journal tables.new.owners.owners }
{
    if effect.is_nothing() {
        drop(effect);
        return;
    }
    tables.commit_owner(OwnerUpdate::of(effect.owner, entry), number);
    tables.commit(effect.change);
}
