//! The end of a delegation that was called back and not given back within a lease (RFC 7530, section 10.4.6).

ghost use Rattle.std.specs.Prelude.{IfNone, IfSome};
ghost use Rattle.nfs_rules.specs.entries.Revoke.{IsRevocation, NoneDue, end_of, return_of};
ghost use Rattle.nfs_share.specs.OpenFound.{delegation_seen};
ghost use Rattle.nfs_state.specs.Room.{state_of};
ghost use Rattle.nfs_state.specs.declared.effect.Effect.{Effect};

use nfs_share::DelegationFound;
use nfs_state::{Change, Effect, Moment, Revoke, Store};

/// The delegation that may be taken away at this moment, if one may: of those that are due the one with the least
/// number.
pub fn next_due(store: &Store, now: Moment) -> Option<DelegationFound>
    ensures next { IfSome result (λ found. IsRevocation store.now.journal.history
        (state_of store.now.tables) (end_of (delegation_seen found) now)
        (return_of (delegation_seen found))) }
    ensures none { IfNone result
        (NoneDue store.now.journal.history (state_of store.now.tables) now) }
{
    store.tables.opens.next_due(store.journal.lease(), now)
}

/// The effect of a delegation's end, if it is due and of those that are due the one with the least number.
pub fn revoke(store: &Store, revoke: &Revoke) -> Option<Effect>
    ensures revocation { IfSome result (λ effect.
        IsRevocation store.now.journal.history (state_of store.now.tables) revoke.entry.now
        effect) }
    ensures none { IfNone result ((effect : Effect)
        → IsRevocation store.now.journal.history (state_of store.now.tables) revoke.entry.now
        effect → ⊥) }
{
    let next = next_due(store, revoke.now)?;
    if next.state.number != revoke.number {
        return None;
    }
    Some(Effect::change_alone(Change::Returns {
        node: next.node,
        number: revoke.number,
    }))
}
