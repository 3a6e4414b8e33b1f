//! Decides each operation that has an entry in the journal; its own rule is in a file of its own.

ghost use Rattle.std.specs.Prelude.{◌-◌, ◌^◌, ◌<◌, IsFalse, IsTrue};
ghost use Rattle.nfs_rules.specs.operations.{IsPlain, IsRuled};
ghost use Rattle.nfs_rules.specs.Deciding.{Decides};
ghost use Rattle.nfs_state.specs.Entries.{IsFilehandle};
ghost use Rattle.nfs_state.specs.Room.{state_of};
ghost use Rattle.nfs_state.specs.Store.{OwnersAgree};
ghost use Rattle.nfs_tree.specs.Profiles.{has_entry};
ghost use Rattle.nfs_xdr.specs.Names.{is_sequenced};

mod close;
mod delegreturn;
mod getattr;
mod lock;
mod lockt;
mod locku;
mod open;
mod open_confirm;
mod open_downgrade;
mod read;
mod readdir;
mod release_lockowner;
mod sequenced;
mod setattr;
mod setclientid;
mod setclientid_confirm;
mod write;

use crate::decision::Decision;
use crate::sequence::{requester_of_open, requester_of_target};
use crate::stateids::target_of;
use nfs_state::{Request, Shortage, Store};
use nfs_xdr::{Names, Op};
pub use readdir::LISTING_LIMIT;
use std::alloc::Global;

/// Decides, by the operation's rule, how a request is answered and what it changes.
pub fn decide(alloc: Global, store: &Store, request: &Request) -> Result<Decision, Shortage>
    requires entry { IsTrue (has_entry store.now.journal.history.policy.profile request.now.op) }
    requires node { IsFilehandle store.now.journal.history request.now.filehandle }
    requires numbers { store.now.tables.clients.registry.last_confirm < 2 ^ 64 - 1 }
    requires states { store.now.tables.numbers < 2 ^ 32 - 2 }
    requires kept { OwnersAgree store.now }
    ensures { Decides (IsRuled request.now.op store.now.journal.history (state_of store.now.tables)
        request.now) (state_of store.now.tables) request.now.op result }
{
    match request.op.names() {
        Names::Opener(owner, seqid) => {
            let requester = requester_of_open(&store.tables, owner, seqid);
            sequenced::decide(alloc, store, request, requester, Ok(None))
        }
        Names::Owned(stateid, seqid) => {
            let target = target_of(&store.tables, store.journal.epoch(), stateid);
            let requester = requester_of_target(&store.tables, stateid, seqid, target);
            sequenced::decide(alloc, store, request, requester, target)
        }
        Names::Nothing | Names::Client(_) | Names::State(_) => {
            decide_plain(alloc, store, request)
        }
    }
}

// Decides an operation that goes by no sequence id.
fn decide_plain(alloc: Global, store: &Store, request: &Request) -> Result<Decision, Shortage>
    requires entry { IsTrue (has_entry store.now.journal.history.policy.profile request.now.op) }
    requires other { IsFalse (is_sequenced request.now.op) }
    requires node { IsFilehandle store.now.journal.history request.now.filehandle }
    requires numbers { store.now.tables.clients.registry.last_confirm < 2 ^ 64 - 1 }
    ensures { Decides (IsPlain request.now.op store.now.journal.history (state_of store.now.tables)
        request.now) (state_of store.now.tables) request.now.op result }
{
    match &request.op {
        Op::Delegreturn(args) => delegreturn::decide(store, request.filehandle, args),
        Op::Getattr(mask) => getattr::decide(alloc, store, request, mask),
        Op::Setclientid(args) => setclientid::decide(store, request, args),
        Op::SetclientidConfirm(args) => setclientid_confirm::decide(alloc, store, request, args),
        Op::Lockt(args) => lockt::decide(store, request, args),
        Op::Read(args) => read::decide(alloc, store, request, args),
        Op::Readdir(args) => readdir::decide(alloc, store, request, args),
        Op::Setattr(args) => setattr::decide(alloc, store, request, args),
        Op::Write(args) => write::decide(store, request, args),
        Op::ReleaseLockowner(args) => release_lockowner::decide(&store.tables, args),
        _ => unreachable!(),
    }
}
