//! Counts the calls of all connections of an order, and derives the time of each call from the count.

use nfs_core::Moment;
use std::sync::atomic::{AtomicU64, Ordering};

// The last moment that a clock can give, in seconds.
const LAST_SECOND: u64 = (1 << 40) - 3;

/// The calls of all connections of an order so far.
#[derive(Drop)]
pub(crate) struct Calls {
    count: AtomicU64,
    start: Moment,
    pace: u64,
}

impl Calls {
    /// No calls yet. After so many as `pace` the moment is a second later, up to the last moment that there is; or it
    /// stays, where `pace` is 0.
    pub(crate) fn new(start: Moment, pace: u32) -> Calls {
        Calls {
            count: AtomicU64::new(0),
            start,
            pace: pace as u64,
        }
    }

    /// The moment of the next call.
    pub(crate) fn moment(&self) -> Moment {
        self.moment_of(self.count.load(Ordering::SeqCst))
    }

    /// Counts one more call, and returns its moment.
    pub(crate) fn count_call(&self) -> Moment {
        self.moment_of(self.count.fetch_add(1, Ordering::SeqCst))
    }

    // The moment after so many calls.
    fn moment_of(&self, count: u64) -> Moment {
        let passed = count.checked_div(self.pace).unwrap_or(0);
        let seconds = self.start.seconds().saturating_add(passed);
        Moment::new(seconds.min(LAST_SECOND)).unwrap()
    }
}
