//! Where a run's moments come from: the clock of the system, or orders.

use crate::order_clock::OrderClock;
use std::time::Duration;

/// What tells the moments of a run.
#[derive(Clone, Copy)]
pub enum TimeSource<'a> {
    /// The monotonic clock, which showed this when the run began.
    Since(Duration),
    /// The orders of the run.
    Orders(&'a OrderClock),
}
