//! What may come next in a journal, and entering an entry that is handed in.

ghost use Rattle.std.specs.Prelude.{◌≡◌, ◌≤◌, IfOk, IsErrOf, OnErr};
ghost use Rattle.nfs_core.specs.Events.{entry_by};
ghost use Rattle.nfs_core.specs.Following.{CanBeAsked, IsNext, MayBeAnswered, MayFollow, StoreAgrees};
ghost use Rattle.nfs_core.specs.Server.{AreAlike, Enters, server_of};
ghost use Rattle.nfs_core.specs.Step.{HasNoAnswer, HasNoStep};
ghost use Rattle.nfs_state.specs.Entries.{IsSendable, entry_of};
ghost use Rattle.nfs_state.specs.Room.{state_of};
ghost use Rattle.nfs_state.specs.Store.{OwnersAgree};
ghost use Rattle.nfs_state.specs.declared.entry.Entry.TheVariants as entries;

use crate::CoreError;
use crate::committing::commit;
use crate::entering::enter_event;
use crate::event::Event;
use crate::holdings::Holdings;
use nfs_rules::{Decision, at_most_one_decision, decide};
use nfs_state::{Call, Effect, Entry, Request, Shortage, Store};
use std::alloc::Global;

/// Why an entry that was handed in wasn't entered.
#[derive(Clone, Copy, PartialEq, Eq)]
pub enum FollowError {
    /// The entry may not come next.
    NotNext,
    /// Memory ran out.
    Memory,
}

impl From<Shortage> for FollowError {
    ghost use Rattle.std.specs.Prelude.{◌≡◌};
    ghost use Rattle.nfs_core.specs.Following.{error_of};

    ghost from_gives = { λ shortage error. error ≡ error_of shortage };

    fn from(shortage: Shortage) -> FollowError {
        match shortage {
            Shortage::Limit => FollowError::NotNext,
            Shortage::Memory => FollowError::Memory,
        }
    }
}

/// Enters an entry that is handed in, if it may come next, and returns its number. Fails with NotNext only if it may
/// not, and with Memory only if it may as far as it is judged without a call's answer. What fails changes nothing but
/// room, of which there isn't less.
pub(crate) fn follow(alloc: Global, held: &mut Holdings, entry: Entry) -> Result<u32, FollowError>
    requires { StoreAgrees held.old.store }
    ensures entered { IfOk result (λ number. Enters (server_of held.old) (server_of held.new)
        entry number) }
    ensures kept { OwnersAgree held.new.store }
    ensures not_next { IsErrOf result FollowError.NotNext
        → HasNoStep held.old.store.journal.history (state_of held.old.store.tables) entry }
    ensures memory { IsErrOf result FollowError.Memory
        → MayFollow (server_of held.old) entry }
    ensures same { OnErr result (AreAlike (server_of held.old) (server_of held.new)) }
    ensures room { OnErr result (held.old.store.journal.room ≤ held.new.store.journal.room) }
{
    match entry {
        Entry::Call(call) => follow_call(alloc, held, call),
        Entry::Expire(expire) => follow_event(alloc, held, Event::Expire(expire)),
        Entry::Revoke(revoke) => follow_event(alloc, held, Event::Revoke(revoke)),
        Entry::Path(path) => follow_event(alloc, held, Event::Path(path)),
        Entry::Forget(forget) => follow_event(alloc, held, Event::Forget(forget)),
    }
}

// Enters a call that is handed in, if it may come next.
fn follow_call(alloc: Global, held: &mut Holdings, call: Call) -> Result<u32, FollowError>
    requires { StoreAgrees held.old.store }
    ensures entered { IfOk result (λ number. Enters (server_of held.old) (server_of held.new)
        (entries.Call call) number) }
    ensures kept { OwnersAgree held.new.store }
    ensures not_next { IsErrOf result FollowError.NotNext
        → HasNoStep held.old.store.journal.history (state_of held.old.store.tables)
        (entries.Call call) }
    ensures memory { IsErrOf result FollowError.Memory
        → MayFollow (server_of held.old) (entries.Call call) }
    ensures same { OnErr result (AreAlike (server_of held.old) (server_of held.new)) }
    ensures room { OnErr result (held.old.store.journal.room ≤ held.new.store.journal.room) }
{
    match effect_of_call(alloc, held, &call) {
        Ok(effect) => Ok(commit(alloc, held, Entry::Call(call), effect)?),
        Err(refused) => {
            drop(call);
            Err(refused)
        }
    }
}

// Enters an event that is handed in, if it may come next.
fn follow_event(alloc: Global, held: &mut Holdings, event: Event) -> Result<u32, FollowError>
    requires { StoreAgrees held.old.store }
    ensures entered { IfOk result (λ number. Enters (server_of held.old) (server_of held.new)
        (entry_by event) number) }
    ensures kept { OwnersAgree held.new.store }
    ensures not_next { IsErrOf result FollowError.NotNext
        → HasNoStep held.old.store.journal.history (state_of held.old.store.tables)
        (entry_by event) }
    ensures memory { IsErrOf result FollowError.Memory
        → MayFollow (server_of held.old) (entry_by event) }
    ensures same { OnErr result (AreAlike (server_of held.old) (server_of held.new)) }
    ensures room { OnErr result (held.old.store.journal.room ≤ held.new.store.journal.room) }
{
    match enter_event(alloc, held, event) {
        Ok(number) => Ok(number),
        Err(CoreError::Memory) => Err(FollowError::Memory),
        Err(_) => Err(FollowError::NotNext),
    }
}

// The effect of the call, if its request can be asked and its answer is the one that is decided.
fn effect_of_call(alloc: Global, held: &Holdings, call: &Call) -> Result<Effect, FollowError>
    requires { StoreAgrees held.now.store }
    ensures next { IfOk result (λ effect. IsNext held.now.store.journal.history
        (state_of held.now.store.tables) (entries.Call call.now) effect) }
    ensures not_next { IsErrOf result FollowError.NotNext
        → HasNoStep held.now.store.journal.history (state_of held.now.store.tables)
        (entries.Call call.now) }
    ensures memory { IsErrOf result FollowError.Memory
        → MayFollow (server_of held.now) (entries.Call call.now) }
{
    at_most_one_decision();
    let journal = &held.store.journal;
    if !call
        .request
        .can_be_asked(journal.policy().profile, journal.tree().len())
    {
        return Err(FollowError::NotNext);
    }
    let Decision { answer, effect } = decide_next(alloc, &held.store, &call.request)?;
    let is_same = answer.is_same(&call.answer);
    drop(answer);
    if is_same {
        Ok(effect)
    } else {
        drop(effect);
        Err(FollowError::NotNext)
    }
}

/// Decides which answer to the request may come next, and its effect. Fails with Limit only if no answer may come next,
/// and with Memory only if no limit would be exceeded.
pub(crate) fn decide_next(
    alloc: Global,
    store: &Store,
    request: &Request,
) -> Result<Decision, Shortage>
    requires asked { CanBeAsked store.now.journal.history request.now }
    requires stored { StoreAgrees store.now }
    ensures next { IfOk result (λ decision. IsNext store.now.journal.history
        (state_of store.now.tables) (entry_of request.now decision.answer) decision.effect) }
    ensures sendable { IfOk result (λ decision. IsSendable request.now.op decision.answer) }
    ensures limit { IsErrOf result Shortage.Limit
        → HasNoAnswer store.now.journal.history (state_of store.now.tables) request.now }
    ensures memory { IsErrOf result Shortage.Memory
        → MayBeAnswered store.now.journal.history (state_of store.now.tables) request.now }
{
    at_most_one_decision();
    if store.journal.is_full() {
        return Err(Shortage::Limit);
    }
    decide(alloc, store, request)
}
