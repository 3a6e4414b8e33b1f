//! The thread that sweeps once a second and shows the core to the run's watcher, more often.

use crate::listening::Setting;
use crate::obeying::obey_until;
use crate::{Uptime, Watcher};
use nfs_server::Clock;
use nfs_shared::{Naming, Shared, Sweeper};
use std::sync::Wait;
use std::time::{Clock as Timer, Duration};

// How many milliseconds it is from a look of the watcher to the next one.
const LOOK_MILLIS: u64 = 100;

// How many of these the watcher has between two sweeps, which takes a second.
const LOOKS: u32 = 10;

// How many looks the watcher has after a sweep at most.
const MOST_LOOKS: u32 = 4_096;

/// Sweeps until the end of the connections is told: by orders, if the run goes by them, or else once a second. Gives
/// the sweeper back.
pub(crate) fn sweep_until<N: Naming, R: Wait + Timer, W: Watcher>(
    setting: &Setting<'_, R, W>,
    shared: &Shared<N>,
    sweeper: Sweeper<N>,
) -> Sweeper<N> {
    match setting.ordered() {
        Some((door, orders)) => obey_until(setting, door, orders, shared, sweeper),
        None => sweep_each_second(setting, shared, sweeper),
    }
}

// Once a second removes the clients whose leases are over, revokes the delegations that are due and forgets the open
// owners that may be forgotten. The watcher looks ten times as often.
fn sweep_each_second<N: Naming, R: Wait + Timer, W: Watcher>(
    setting: &Setting<'_, R, W>,
    shared: &Shared<N>,
    mut sweeper: Sweeper<N>,
) -> Sweeper<N> {
    let mut uptime = Uptime::of(setting.rt, setting.source);
    for _ in setting.rt.forever() {
        if watch_on(setting, shared) {
            break;
        }
        shared.sweep(setting.rt, &mut sweeper, uptime.now());
    }
    sweeper
}

// Has the watcher look for a second, unless the run ends before. Returns whether it has ended.
fn watch_on<N: Naming, R: Wait + Timer, W: Watcher>(
    setting: &Setting<'_, R, W>,
    shared: &Shared<N>,
) -> bool {
    for _ in 0..LOOKS {
        if setting
            .bell
            .wait(setting.rt, Duration::from_millis(LOOK_MILLIS))
        {
            return true;
        }
        show(setting.rt, shared, setting.watcher);
    }
    false
}

/// Has the watcher look at the core, and write down what it sees, as often as it wants to, each time in a hold of its
/// own.
pub(crate) fn show<N: Naming, R: Wait, W: Watcher>(rt: &R, shared: &Shared<N>, watcher: &W) {
    for _ in 0..MOST_LOOKS {
        let hold = shared.hold(rt);
        let sees_more = watcher.look(hold.guard.core());
        drop(hold);
        if !sees_more {
            return;
        }
        watcher.write_down();
    }
}
