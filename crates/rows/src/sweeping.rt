//! Sweeps in a thread of its own while connections are served, so that tests try renewals beside sweeps.

use crate::calls::Calls;
use nfs_core::Moment;
use nfs_leases::Swept;
use nfs_shared::{Naming, Shared, Sweeper};
use std::sync::Wait;
use std::sync::atomic::{AtomicBool, Ordering};
use std::thread;

/// How many sweeps there were, and how many clients they removed.
#[derive(Clone, Copy)]
pub(crate) struct Sweeps {
    pub(crate) count: u32,
    pub(crate) expired: u32,
}

impl Sweeps {
    pub(crate) const NONE: Sweeps = Sweeps {
        count: 0,
        expired: 0,
    };

    // These sweeps, and one more sweep with this outcome.
    fn and(self, swept: Swept) -> Sweeps {
        Sweeps {
            count: self.count.saturating_add(1),
            expired: self.expired.saturating_add(swept.expired),
        }
    }
}

/// Sweeps once at each moment that comes, and once more when the connections have ended. It gives the sweeper back.
pub(crate) fn sweep_until<N: Naming, R: Wait>(
    rt: &R,
    shared: &Shared<N>,
    mut sweeper: Sweeper<N>,
    calls: &Calls,
    is_over: &AtomicBool,
) -> (Sweeps, Sweeper<N>) {
    let mut sweeps = Sweeps::NONE;
    let mut last: Option<u64> = None;
    for _ in rt.forever() {
        let is_last = is_over.load(Ordering::SeqCst);
        let now = calls.moment();
        if last != Some(now.seconds()) || is_last {
            sweeps = sweeps.and(shared.sweep(rt, &mut sweeper, now));
            last = Some(now.seconds());
        }
        if is_last {
            return (sweeps, sweeper);
        }
        thread::yield_now();
    }
    unreachable!()
}
