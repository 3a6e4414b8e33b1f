//! The clock of `serve`, by which leases end: seconds since the run began.

ghost use Rattle.std.specs.Prelude.{◌≡◌};

use crate::time_source::TimeSource;
use nfs_core::Moment;
use nfs_server::Clock;
use std::time::Clock as Timer;

/// A clock that shows the moment of a run: the whole seconds since its start, or what its orders set. It never goes
/// back.
#[derive(Drop)]
pub struct Uptime<'a, R> {
    rt: &'a R,
    source: TimeSource<'a>,
    last: Moment,
}

impl<'a, R: Timer> Uptime<'a, R> {
    /// By this source.
    pub(crate) fn of(rt: &'a R, source: TimeSource<'a>) -> Uptime<'a, R>
        ensures { result ≡ record { rt = rt.entry; source = source.entry; last = 0 } }
    {
        Uptime {
            rt,
            source,
            last: Moment::new(0).unwrap(),
        }
    }

    // The moment by the source, if that can be read and isn't past the last moment that there is.
    fn read(&self) -> Option<Moment> {
        match self.source {
            TimeSource::Since(start) => match self.rt.monotonic() {
                Ok(time) => Moment::new(time.saturating_sub(start).as_secs()),
                Err(_) => None,
            },
            TimeSource::Orders(clock) => clock.read(),
        }
    }
}

impl<'a, R: Timer> Clock for Uptime<'a, R> {
    ghost use Rattle.nfs_threads.specs.Uptimes.{GoesOn};

    ghost tells = { GoesOn };

    fn now(&mut self) -> Moment {
        if let Some(now) = self.read() {
            if self.last.seconds() < now.seconds() {
                self.last = now;
            }
        }
        self.last
    }
}
