//! How recalls go from the core into the queue, at the end of each hold of the lock.

ghost use Rattle.std.specs.Prelude.{◌≡◌, ◌+◌, ◌≤◌, ◌++◌, [], IfNone, IsFalse, IsTrue, None, length, option_to_list};
ghost use mathlib.Core.List.{IsPrefix};
ghost use mathlib.Core.Logic.{◌⊎◌};
ghost use Rattle.nfs_shared.specs.Held.{HasOneMore, IsMoved, Moves, waiting};
ghost use Rattle.nfs_shared.specs.declared.recall_queue.TheConstants.{CAPACITY};

use crate::held::{Held, recalls_are_left};
use crate::naming::Naming;
use crate::recall_queue::{PutPass, RecallQueue};
use nfs_core::Recall;
use nfs_leases::LeasedCore;
use nfs_words::WordDesk;
use std::sync::Wait;

/// Puts the recalls that wait into the queue, in order, until none waits or the queue gives one back.
pub(crate) fn move_held<N: Naming, R: Wait>(rt: &R, queue: &RecallQueue, held: &mut Held<N>)
    requires queue { queue.now ≡ N.run.queue }
    ensures moves { Moves held.old held.new }
    ensures moved { IsMoved held.new }
{
    // As in most holds: a look is all that it takes.
    if held.waiting() == 0 {
        return;
    }
    for _ in rt.forever() {
        if !move_one(rt, queue, held) {
            return;
        }
    }
    unreachable!()
}

// Puts the first of the recalls that wait into the queue. False where none waits, and where the queue gives it back.
fn move_one<N: Naming, R: Wait>(rt: &R, queue: &RecallQueue, held: &mut Held<N>) -> bool
    requires queue { queue.now ≡ N.run.queue }
    ensures moves { Moves held.old held.new }
    ensures one { IsTrue result → HasOneMore held.old.put held.new.put }
    ensures moved { IsFalse result → IsMoved held.new }
{
    let moved = put_one(rt, queue, &mut held.put, &mut held.hand, &mut held.leased);
    recalls_are_left(&held.leased.core);
    moved
}

// Puts the first of the recalls that wait into the queue: the one in hand, or else the core's first.
fn put_one<R: Wait>(
    rt: &R,
    queue: &RecallQueue,
    put: &mut PutPass,
    hand: &mut Option<Recall>,
    leased: &mut LeasedCore<WordDesk>,
) -> bool
    requires queue { put.old.queue ≡ queue.now }
    ensures queue { put.new.queue ≡ put.old.queue }
    ensures core { leased.new.core ≡ record leased.old.core {
      recalls = leased.new.core.recalls;
    } }
    ensures book { leased.new.book ≡ leased.old.book }
    ensures recalls { put.new.recalls ++ waiting hand.new leased.new.core.recalls
        ≡ put.old.recalls ++ waiting hand.old leased.old.core.recalls }
    ensures put { IsPrefix put.old.recalls put.new.recalls }
    ensures known { put.new.known ≡ put.old.known }
    ensures one { IsTrue result → HasOneMore put.old.recalls put.new.recalls }
    ensures room { IsFalse result → (waiting hand.new leased.new.core.recalls ≡ [])
        ⊎ (CAPACITY + length put.new.known ≤ length put.new.recalls) }
{
    let Some(recall) = next_waiting(hand, leased) else {
        return false;
    };
    match queue.put(rt, put, recall) {
        Ok(()) => true,
        Err(recall) => {
            *hand = Some(recall);
            false
        }
    }
}

// Takes out the first of the recalls that wait.
fn next_waiting(hand: &mut Option<Recall>, leased: &mut LeasedCore<WordDesk>) -> Option<Recall>
    ensures core { leased.new.core ≡ record leased.old.core {
      recalls = leased.new.core.recalls;
    } }
    ensures book { leased.new.book ≡ leased.old.book }
    ensures first { waiting hand.old leased.old.core.recalls
        ≡ option_to_list result ++ waiting hand.new leased.new.core.recalls }
    ensures hand { hand.new ≡ None }
    ensures none { IfNone result (leased.new.core.recalls.pending ≡ []) }
{
    match hand.take() {
        Some(recall) => Some(recall),
        None => leased.take_recall(),
    }
}
