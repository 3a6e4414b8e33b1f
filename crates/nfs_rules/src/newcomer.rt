//! Judges the lock owner that a LOCK introduces, whose sequence id has to be right, too.

ghost use Rattle.std.specs.Prelude.{◌≡◌};
ghost use Rattle.nfs_rules.specs.Finding.{newcomer_seen};
ghost use Rattle.nfs_rules.specs.Newcomers.{has_turn, newcomer_by, newcomer_in, newcomer_of};
ghost use Rattle.nfs_state.specs.Kept.{Agrees};
ghost use Rattle.nfs_state.specs.Room.{state_of};
ghost use Rattle.nfs_state.specs.State.{History};

use nfs_forms::{ClientId, LockOwner, Locker, NewLocker};
use nfs_owners::OwnerRef;
use nfs_state::{Journal, Tables};
use nfs_xdr::Op;

/// The lock owner that a request introduces (RFC 7530, sections 9.1.7 and 16.10.5).
#[derive(Clone, Copy)]
pub(crate) enum Newcomer<'a> {
    /// There is none, or the request isn't for its account: it is of another client than the owner of the stateid, or
    /// it is known and its sequence id isn't the next one.
    Nobody,
    /// The lock owner is known, and its sequence id is the next one.
    Known(&'a LockOwner),
    Unknown(&'a LockOwner),
}

/// The lock owner that the operation introduces, as a request of an owner of this client.
pub(crate) fn newcomer_of<'a>(tables: &Tables, client: ClientId, op: &'a Op) -> Newcomer<'a>
    ensures { (journal : History) → Agrees journal tables.now.owners.owners
        → newcomer_seen result ≡ newcomer_of journal (state_of tables.now) client op.now }
{
    match op {
        Op::Lock(args) => newcomer_in(tables, client, &args.locker),
        _ => Newcomer::Nobody,
    }
}

// The lock owner that the locker introduces.
fn newcomer_in<'a>(tables: &Tables, client: ClientId, locker: &'a Locker) -> Newcomer<'a>
    ensures { (journal : History) → Agrees journal tables.now.owners.owners
        → newcomer_seen result ≡ newcomer_in journal (state_of tables.now) client locker.now }
{
    match locker {
        Locker::New(locker) if locker.lock_owner.client == client => newcomer_by(tables, locker),
        Locker::New(_) | Locker::Known(_) => Newcomer::Nobody,
    }
}

// The newcomer among the lock owners, whichever client it is of.
fn newcomer_by<'a>(tables: &Tables, locker: &'a NewLocker) -> Newcomer<'a>
    ensures { (journal : History) → Agrees journal tables.now.owners.owners
        → newcomer_seen result ≡ newcomer_by journal (state_of tables.now) locker.now }
{
    let newcomer = &locker.lock_owner;
    match tables.owners.find(OwnerRef::of_lock(newcomer)) {
        None => Newcomer::Unknown(newcomer),
        Some(known) if known.kept.precedes(locker.lock_seqid) => Newcomer::Known(newcomer),
        Some(_) => Newcomer::Nobody,
    }
}

/// Whether it is the lock owner's turn: it isn't known, or the request is its next one.
pub(crate) fn has_turn(tables: &Tables, locker: &NewLocker) -> bool
    ensures { (journal : History) → Agrees journal tables.now.owners.owners
        → result ≡ has_turn journal (state_of tables.now) locker.now }
{
    !matches!(newcomer_by(tables, locker), Newcomer::Nobody)
}
