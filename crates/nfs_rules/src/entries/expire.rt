//! The end of a client whose lease has run out (RFC 7530, section 9.6).

ghost use Rattle.std.specs.Prelude.{◌≡◌, ◌↔◌, Err, IfOk, IsFalse, IsTrue};
ghost use Rattle.nfs_rules.specs.entries.Expire.{IsExpiry, is_due, is_live};
ghost use Rattle.nfs_state.specs.Room.{state_of};

use nfs_state::{Change, Effect, Expire, Store, is_over};
use nfs_xdr::ClientId;

/// Why a client isn't removed.
#[derive(Clone, Copy, PartialEq, Eq)]
pub enum NotExpired {
    /// The client has no confirmed record.
    NotLive,
    /// The lease of the client hasn't run out.
    NotDue,
}

/// The effect of a client's end, if its lease has run out.
pub fn expire(store: &Store, expire: &Expire) -> Result<Effect, NotExpired>
    ensures expiry { IfOk result (λ effect.
        IsExpiry store.now.journal.history (state_of store.now.tables) expire.entry.now effect) }
    ensures not_live { result ≡ Err NotExpired.NotLive ↔ IsFalse
        (is_live store.now.journal.history (state_of store.now.tables) expire.entry.now.client) }
    ensures not_due { result ≡ Err NotExpired.NotDue ↔ IsTrue
        (is_live store.now.journal.history (state_of store.now.tables) expire.entry.now.client)
        × IsFalse (is_due store.now.journal.history expire.entry.now) }
{
    let client = ClientId {
        epoch: store.journal.epoch(),
        number: expire.client,
    };
    if store.tables.clients.of(client).is_none() {
        return Err(NotExpired::NotLive);
    }
    if !is_over(expire.seen, store.journal.lease(), expire.now) {
        return Err(NotExpired::NotDue);
    }
    Ok(Effect::change_alone(Change::Expires(client)))
}
