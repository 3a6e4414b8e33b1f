//! The clock that a connection reads before each call, as a trait.

ghost use Rattle.std.specs.Prelude.{◌≡◌, ℕ};

use nfs_core::Moment;

/// A clock, which gives the present moment.
pub trait Clock {
    /// How the clock may be read: its state before, the moment that it shows, and its state after.
    ghost tells: { Self → ℕ → Self → Type 0 };

    fn now(&mut self) -> Moment
        ensures { tells self.old result self.new };
}

/// A clock that always shows the same moment.
#[derive(Clone, Copy)]
pub struct Stopped {
    moment: Moment,
}

impl Stopped {
    pub fn at(moment: Moment) -> Stopped
        ensures { result.moment ≡ moment }
    {
        Stopped { moment }
    }
}

impl Clock for Stopped {
    ghost tells = { λ old moment new. (moment ≡ old.moment) × (new ≡ old) };

    fn now(&mut self) -> Moment {
        self.moment
    }
}
