//! What the sweeper's thread does in a run by orders.

use crate::listening::Setting;
use crate::orders::{Next, Orders};
use crate::path_sight::PathSight;
use crate::sweeping::show;
use crate::{Door, Watcher};
use nfs_core::{CoreError, Moment};
use nfs_leases::Swept;
use nfs_orders::{Answer, ClientPath, Order, OrderError, SweptCounts};
use nfs_shared::{Naming, Shared, Sweeper};
use std::sync::Wait;
use std::time::{Clock as Timer, Duration};

// How many milliseconds it is from a look of the watcher to the next one.
const WATCH_MILLIS: u64 = 100;

// How many milliseconds it is from a look for the mark of a path to the next one.
const LOOK_MILLIS: u64 = 5;

// The last moment that there is.
const LAST_MOMENT: u64 = (1 << 40) - 3;

/// Does what is ordered, one order after the other, and has the watcher told of each answer, until the orders end or
/// one of them ends the run. Then it closes the door. The watcher looks about ten times a second. Gives the sweeper
/// back.
pub(crate) fn obey_until<N: Naming, R: Wait + Timer, W: Watcher>(
    setting: &Setting<'_, R, W>,
    door: &Door,
    orders: &Orders,
    shared: &Shared<N>,
    sweeper: Sweeper<N>,
) -> Sweeper<N> {
    let mut helm = Helm {
        rt: setting.rt,
        watcher: setting.watcher,
        orders,
        shared,
        sweeper,
        moment: Moment::new(0).unwrap(),
        watched: setting.rt.monotonic().unwrap_or(Duration::ZERO),
    };
    for _ in setting.rt.forever() {
        let goes_on = match orders.next(setting.rt, Duration::from_millis(WATCH_MILLIS)) {
            Next::Line(line) => helm.answer(line),
            Next::Nothing => true,
            Next::End => false,
        };
        if !goes_on {
            break;
        }
        helm.watch();
    }
    door.close(setting.rt);
    helm.into_sweeper()
}

// The thread that does the orders, with what it does them by.
#[derive(Drop)]
struct Helm<'a, N: Naming, R, W> {
    rt: &'a R,
    watcher: &'a W,
    orders: &'a Orders,
    shared: &'a Shared<N>,
    sweeper: Sweeper<N>,
    // The moment, which the clock shows.
    moment: Moment,
    // When the watcher looked last, by the monotonic clock.
    watched: Duration,
}

impl<N: Naming, R: Wait + Timer, W: Watcher> Helm<'_, N, R, W> {
    fn into_sweeper(self) -> Sweeper<N> {
        let Helm {
            rt: _,
            watcher: _,
            orders: _,
            shared: _,
            sweeper,
            moment: _,
            watched: _,
        } = self;
        sweeper
    }

    // Does what the line orders, and tells the answer. Returns whether the run goes on: the order that ends it is
    // answered when it has ended.
    fn answer(&mut self, line: Result<Order, OrderError>) -> bool {
        let answer = match line {
            Ok(order) => self.obey(order),
            Err(error) => Some(Answer::Error(error)),
        };
        match answer {
            Some(answer) => {
                self.watcher.tell_answer(answer);
                true
            }
            None => false,
        }
    }

    // Does this, and returns the answer, or none if it ends the run.
    fn obey(&mut self, order: Order) -> Option<Answer> {
        let done = match order {
            Order::Advance(seconds) => self.advance(seconds),
            Order::Sweep => Ok(self.sweep()),
            Order::Moment => Ok(Answer::Moment(self.moment.seconds())),
            Order::Mark(path) => self.mark(path),
            Order::Wait(path, seconds) => self.wait(path, seconds),
            Order::Entries => Ok(Answer::Entries(self.count_entries())),
            Order::Journal => self.draft(),
            Order::End => {
                self.orders.note_end(self.rt);
                return None;
            }
        };
        match done {
            Ok(answer) => Some(answer),
            Err(error) => Some(Answer::Error(error)),
        }
    }

    fn advance(&mut self, seconds: u64) -> Result<Answer, OrderError> {
        let seconds = self.moment.seconds().saturating_add(seconds);
        let Some(moment) = Moment::new(seconds) else {
            return Err(OrderError::Moment(LAST_MOMENT));
        };
        self.moment = moment;
        self.orders.clock().set(moment);
        Ok(self.sweep())
    }

    fn sweep(&mut self) -> Answer {
        let swept = self.shared.sweep(self.rt, &mut self.sweeper, self.moment);
        Answer::Swept(self.moment.seconds(), counts_of(&swept))
    }

    fn mark(&mut self, path: ClientPath) -> Result<Answer, OrderError> {
        let ClientPath { client, is_up } = path;
        match self
            .shared
            .mark_ordered(self.rt, &mut self.sweeper, client, is_up)
        {
            Ok(_) => Ok(Answer::Path(path)),
            Err(CoreError::NotLive | CoreError::NotDue) => Err(OrderError::NotLive(client)),
            Err(CoreError::Full) => Err(OrderError::Full),
            Err(CoreError::Memory) => Err(OrderError::Memory),
        }
    }

    // Waits until the path is marked so, for so many seconds at most, or until no more orders come.
    fn wait(&mut self, path: ClientPath, seconds: u32) -> Result<Answer, OrderError> {
        let end = self
            .time()
            .saturating_add(Duration::from_secs(u64::from(seconds)));
        let mut sight = PathSight::of(path);
        let mut most = Duration::ZERO;
        let rt = self.rt;
        for _ in rt.forever() {
            let has_ended = self.orders.wait_for_end(rt, most);
            if has_ended {
                return Err(OrderError::RunEnds);
            }
            if self.finds(&mut sight) {
                return Ok(Answer::Path(path));
            }
            if self.time() >= end {
                return Err(OrderError::NotWithin(seconds));
            }
            self.watch();
            most = Duration::from_millis(LOOK_MILLIS);
        }
        unreachable!()
    }

    // Whether the path is marked so.
    fn finds(&self, sight: &mut PathSight) -> bool {
        let hold = self.shared.hold(self.rt);
        let found = sight.finds(hold.guard.core());
        drop(hold);
        found
    }

    fn count_entries(&self) -> usize {
        let hold = self.shared.hold(self.rt);
        let count = hold.guard.core().journal().len();
        drop(hold);
        count
    }

    // Brings the file of the journal's beginning up to date.
    fn draft(&mut self) -> Result<Answer, OrderError> {
        self.show();
        Ok(Answer::Journal(self.watcher.count_written()?))
    }

    // Has the watcher look, if its last look was a while ago.
    fn watch(&mut self) {
        let since = self.time().saturating_sub(self.watched);
        if since >= Duration::from_millis(WATCH_MILLIS) {
            self.show();
        }
    }

    fn show(&mut self) {
        show(self.rt, self.shared, self.watcher);
        self.watched = self.time();
    }

    // What the monotonic clock shows, if it can be read.
    fn time(&self) -> Duration {
        self.rt.monotonic().unwrap_or(Duration::ZERO)
    }
}

fn counts_of(swept: &Swept) -> SweptCounts {
    SweptCounts {
        expired: swept.expired,
        refused: swept.refused,
        revoked: swept.revoked,
        forgotten: swept.forgotten,
        is_stopped: swept.stopped.is_some(),
    }
}
