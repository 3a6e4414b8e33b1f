//! What can happen without a call: ends of clients, delegations and owners, and path marks.

ghost use Rattle.std.specs.Prelude.{◌≡◌};
ghost use Rattle.nfs_core.specs.Events.{entry_by};

use nfs_state::{Entry, Expire, Forget, Path, Revoke};

/// What happens without a call.
#[derive(Drop)]
pub enum Event {
    /// A client whose lease has run out is removed.
    Expire(Expire),
    /// A delegation that wasn't given back in time is taken away.
    Revoke(Revoke),
    /// It became known whether callbacks reach a client.
    Path(Path),
    /// An open owner that has no open, and whose kept request is older than a lease, is forgotten.
    Forget(Forget),
}

impl Event {
    /// The entry that the event makes.
    pub(crate) fn into_entry(self) -> Entry
        ensures { result ≡ entry_by self }
    {
        match self {
            Event::Expire(expire) => Entry::Expire(expire),
            Event::Revoke(revoke) => Entry::Revoke(revoke),
            Event::Path(path) => Entry::Path(path),
            Event::Forget(forget) => Entry::Forget(forget),
        }
    }
}
