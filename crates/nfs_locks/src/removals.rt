//! Removes lock states by owner and by open.

ghost use Rattle.std.specs.Prelude.{◌≡◌, find, option_map};
ghost use Rattle.nfs_locks.specs.KeptLocks.{AreOfClients};
ghost use Rattle.nfs_locks.specs.Locks.{is_lock_of, is_under};
ghost use Rattle.nfs_locks.specs.StoredLocks.{lock_seen};
ghost use Rattle.nfs_rows.specs.Rows.{is_named, without, StandInOrder};

use crate::LockState;
use nfs_forms::LockOwner;
use nfs_rows::Rows;

/// Removes the lock states of this owner that have this hash.
pub(crate) fn remove_named(states: &mut Rows<LockState>, hash: u64, owner: &LockOwner)
    ensures rows { states.new.rows
        ≡ without (is_named hash (λ l. is_lock_of owner.now (lock_seen l))) states.old.rows }
    ensures room { states.new.room ≡ states.old.room }
{
    'removing: loop {
        let Some(number) = number_of(states, hash, owner) else {
            return;
        };
        states.remove(number);
    }
}

// The number of the first lock state of this owner that has this hash, if there is one.
fn number_of(states: &Rows<LockState>, hash: u64, owner: &LockOwner) -> Option<u64>
    ensures number { result ≡ option_map (λ r. r.number)
        (find (is_named hash (λ l. is_lock_of owner.now (lock_seen l))) states.now.rows) }
    ensures order { StandInOrder states.now.rows }
{
    // `len` tells that the rows stand in the order of their numbers.
    let _count = states.len();
    match states.find_named(hash, |state| state.is_of(owner)) {
        Some((number, _)) => Some(number),
        None => None,
    }
}

/// Removes the lock states under the open with this number.
pub(crate) fn remove_under(states: &mut Rows<LockState>, open_number: u32)
    requires { AreOfClients states.old.rows }
    ensures rows { states.new.rows
        ≡ without (λ r. is_under open_number (lock_seen r.value)) states.old.rows }
    ensures room { states.new.room ≡ states.old.room }
{
    'removing: loop {
        let Some(client) = client_under(states, open_number) else {
            return;
        };
        states.remove_of_client(client, |state| state.open_number == open_number);
    }
}

// The client's number of the first lock state under the open with this number, if there is one.
fn client_under(states: &Rows<LockState>, open_number: u32) -> Option<u32>
    ensures { result ≡ option_map (λ r. r.value.owner.client.number)
        (find (λ r. is_under open_number (lock_seen r.value)) states.now.rows) }
{
    match states.iter().find(|row| row.1.open_number == open_number) {
        Some((_, state)) => Some(state.owner.client.number),
        None => None,
    }
}
