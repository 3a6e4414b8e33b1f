//! The end of what is kept for an open owner that has no open, and whose last request that counted is older than a
//! lease (RFC 7530, section 9.1.10).

ghost use Rattle.std.specs.Prelude.{◌≡◌, ◌&&◌, Err, IfNone, IfOk, IfSome, Some, find};
ghost use Rattle.std.specs.Option.{option_copied};
ghost use Rattle.nfs_owners.specs.Owner.{owner_of};
ghost use Rattle.nfs_owners.specs.Owners.{StandInOrder, is_from};
ghost use Rattle.nfs_owners.specs.StateOwner.{as_open_owner};
ghost use Rattle.nfs_rules.specs.entries.Forget.{IsForgetting, NoneIdle, NoneIdleBefore, end_of, is_idle, is_past, kept_moment, recording_entry_of};
ghost use Rattle.nfs_state.specs.Changes.{change_alone};
ghost use Rattle.nfs_state.specs.Room.{state_of};
ghost use Rattle.nfs_state.specs.Stored.{known_owner};
ghost use Rattle.nfs_state.specs.declared.change.Change.TheVariants as changes;
ghost use Rattle.nfs_state.specs.declared.effect.Effect.{Effect};

use nfs_owners::{Owner, OwnerKind, OwnerRef};
use nfs_state::{Change, Effect, Entry, Forget, Journal, Moment, Store, is_over};
use std::alloc::Global;

/// Why an owner isn't forgotten.
#[derive(Clone, Copy, PartialEq, Eq)]
pub enum NotForgotten {
    /// The owner isn't the next one that may be forgotten.
    NotDue,
    /// Memory ran out.
    Memory,
}

/// The owner that may be forgotten at this moment and that the least entry recorded, if there is one. None may that an
/// entry before this one recorded: only the others are looked at.
pub fn next_idle(store: &Store, entry: u32, now: Moment) -> Option<&Owner>
    requires { NoneIdleBefore entry store.now.journal.history (state_of store.now.tables) now }
    ensures next { IfSome result (λ owner. IsForgetting store.now.journal.history
        (state_of store.now.tables) (end_of owner.now.name now)
        (change_alone (changes.Forgets (as_open_owner owner.now.name)))) }
    ensures recorded { IfSome result (λ owner.
        recording_entry_of (as_open_owner owner.now.name) (state_of store.now.tables)
        ≡ Some owner.now.state.recorded) }
    ensures before { IfSome result (λ owner. NoneIdleBefore owner.now.state.recorded
        store.now.journal.history (state_of store.now.tables) now) }
    ensures none { IfNone result
        (NoneIdle store.now.journal.history (state_of store.now.tables) now) }
{
    first_idle(store, entry, now)
}

// The first owner, of those that this entry recorded or a later one, that may be forgotten at this moment.
fn first_idle(store: &Store, entry: u32, now: Moment) -> Option<&Owner>
    ensures idle { option_copied result ≡ find (λ o. is_from entry o
        && is_idle store.now.journal.history (state_of store.now.tables) now (known_owner o))
        store.now.tables.owners.owners }
    ensures own { IfSome result (λ owner.
        owner_of owner.now.name store.now.tables.owners.owners ≡ Some owner.now) }
    ensures order { StandInOrder store.now.tables.owners.owners }
{
    store
        .tables
        .owners
        .find_from(entry, |owner| is_idle(store, owner, now))
}

/// The effect of an owner's end, if it may be forgotten and of those that may be the least entry recorded it.
pub fn forget(alloc: Global, store: &Store, forget: &Forget) -> Result<Effect, NotForgotten>
    ensures forgetting { IfOk result (λ effect. IsForgetting store.now.journal.history
        (state_of store.now.tables) forget.entry.now effect) }
    ensures not_due { result ≡ Err NotForgotten.NotDue → (effect : Effect)
        → IsForgetting store.now.journal.history (state_of store.now.tables) forget.entry.now
        effect → ⊥ }
    ensures memory { result ≡ Err NotForgotten.Memory → (effect : Effect)
        × IsForgetting store.now.journal.history (state_of store.now.tables) forget.entry.now
        effect }
{
    let owner = OwnerRef::of_open(&forget.owner);
    let Some(known) = store.tables.owners.find(owner) else {
        return Err(NotForgotten::NotDue);
    };
    let Some(next) = first_idle(store, 0, forget.now) else {
        return Err(NotForgotten::NotDue);
    };
    if next.state.recorded != known.recorded {
        return Err(NotForgotten::NotDue);
    }
    match owner.to_open_owner(alloc) {
        Ok(owner) => Ok(Effect::change_alone(Change::Forgets(owner))),
        Err(_) => Err(NotForgotten::Memory),
    }
}

// Whether the owner may be forgotten at this moment. What takes longest is looked at last.
fn is_idle(store: &Store, owner: &Owner, now: Moment) -> bool
    ensures { result ≡ is_idle store.now.journal.history (state_of store.now.tables) now
        (known_owner owner.now) }
{
    owner.name.kind == OwnerKind::Open
        && is_past(&store.journal, owner, now)
        && !store
            .tables
            .opens
            .has_owner(owner.name.client, owner.name.name.as_slice())
}

// Whether a lease has passed since the owner's kept request.
fn is_past(journal: &Journal, owner: &Owner, now: Moment) -> bool
    ensures { result ≡ is_past journal.now.history.lease now
        (kept_moment journal.now.history (known_owner owner.now)) }
{
    match journal.entry(owner.state.number as usize) {
        Some(Entry::Call(call)) => is_over(call.request.moment, journal.lease(), now),
        _ => false,
    }
}
