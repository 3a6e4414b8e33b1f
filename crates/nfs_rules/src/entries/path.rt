//! What becomes known of the path of a client's callbacks (RFC 7530, section 10.2).

ghost use Rattle.std.specs.Prelude.{◌≡◌, IfNone, IfSome, IsFalse};
ghost use Rattle.nfs_rules.specs.entries.Expire.{is_live};
ghost use Rattle.nfs_rules.specs.entries.Path.{IsPathMark, mark_of};
ghost use Rattle.nfs_state.specs.Room.{state_of};

use nfs_owners::PathMark;
use nfs_state::{Change, Effect, Path, Store};
use nfs_xdr::ClientId;

/// The effect of a mark of the client's path, if the client is live.
pub fn mark_path(store: &Store, path: &Path) -> Option<Effect>
    ensures mark { IfSome result (λ effect.
        IsPathMark store.now.journal.history (state_of store.now.tables) path.now effect) }
    ensures none { IfNone result (IsFalse
        (is_live store.now.journal.history (state_of store.now.tables) path.now.client)) }
{
    let client = ClientId {
        epoch: store.journal.epoch(),
        number: path.client,
    };
    store.tables.clients.of(client)?;
    Some(Effect::change_alone(Change::MarksPath {
        client: path.client,
        path: mark_of(path.up),
    }))
}

fn mark_of(up: bool) -> PathMark
    ensures { result ≡ mark_of up }
{
    if up { PathMark::Up } else { PathMark::Down }
}
