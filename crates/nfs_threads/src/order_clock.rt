//! The moment of a run that goes by orders.

use nfs_core::Moment;
use std::sync::atomic::{AtomicU64, Ordering};

/// The clock of a run in which time goes by orders alone. It begins at 0, and one thread sets it.
#[derive(Drop)]
pub struct OrderClock {
    seconds: AtomicU64,
}

impl OrderClock {
    pub(crate) fn new() -> OrderClock {
        OrderClock {
            seconds: AtomicU64::new(0),
        }
    }

    /// The moment that was set last. There always is one, of which no proof knows.
    pub(crate) fn read(&self) -> Option<Moment> {
        Moment::new(self.seconds.load(Ordering::SeqCst))
    }

    pub(crate) fn set(&self, moment: Moment) {
        self.seconds.store(moment.seconds(), Ordering::SeqCst);
    }
}
