//! A hold of the lock of the shared state, as a value.

use crate::held::Held;
use crate::moving::move_held;
use crate::naming::Naming;
use crate::recall_queue::RecallQueue;
use crate::shared::Shared;
use std::marker::Model;
use std::sync::{Mutex, MutexGuard, Wait};
use std::thread;

/// How often the lock is looked at before the thread sleeps for it. A look takes some 0.5 microseconds, if no other
/// thread wants the processor: so many take 20.
const LOOKS: u32 = 40;

/// A hold of the lock. Contracts see the value that the lock guards. Where it is dropped, the recalls that wait are put
/// into the queue, as far as that has room, and the lock is given back.
pub struct Hold<'a, 'b, N: Naming, R: Wait> {
    pub(crate) rt: &'b R,
    pub(crate) queue: &'a RecallQueue,
    /// What the lock guards.
    pub guard: MutexGuard<'a, Held<N>>,
}

impl<'a, 'b, N: Naming, R: Wait> Model for Hold<'a, 'b, N, R> {
    ghost use Rattle.std.specs.Prelude.{◌≡◌};
    ghost use Rattle.nfs_shared.specs.Held.{HeldView};

    ghost Value = { HeldView };

    ghost view = { λ h. h.guard.value };

    ghost invariant = { λ h. h.queue.now ≡ N.run.queue };
}

impl<N: Naming, R: Wait> Drop for Hold<'_, '_, N, R> {
    fn drop(self) {
        let Hold {
            rt,
            queue,
            mut guard,
        } = self;
        move_held(rt, queue, &mut *guard);
    }
}

/// The hold that there is. If there is none, it locks the state.
pub(crate) fn hold_in<'h, 'a, 'b, N: Naming, R: Wait>(
    hold: &'h mut Option<Hold<'a, 'b, N, R>>,
    rt: &'b R,
    shared: &'a Shared<N>,
) -> &'h mut Hold<'a, 'b, N, R> {
    if hold.is_none() {
        *hold = Some(shared.hold(rt));
    }
    match hold {
        Some(hold) => hold,
        None => unreachable!(),
    }
}

/// Takes the lock. To sleep and be woken takes longer than most holds last. So it first looks whether the lock is free,
/// and yields the processor after each look.
pub(crate) fn look_and_lock<'a, N: Naming, R: Wait>(
    rt: &R,
    held: &'a Mutex<Held<N>>,
) -> MutexGuard<'a, Held<N>> {
    for _ in 0..LOOKS {
        if let Some(guard) = held.try_lock() {
            return guard;
        }
        thread::yield_now();
    }
    held.lock(rt)
}
