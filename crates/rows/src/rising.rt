//! A clock that counts calls, so that a test repeats the times of a run exactly.

ghost use Rattle.std.specs.Prelude.{◌≡◌};

use crate::calls::Calls;
use nfs_core::Moment;
use nfs_server::Clock;

/// A clock that rises with the calls of all connections, since each asks it once.
#[derive(Drop)]
pub(crate) struct Rising<'a> {
    calls: &'a Calls,
}

impl<'a> Rising<'a> {
    pub(crate) fn new(calls: &'a Calls) -> Rising<'a> {
        Rising { calls }
    }
}

impl<'a> Clock for Rising<'a> {
    // Nobody knows when the others call.
    ghost tells = { λ old moment new. new ≡ old };

    fn now(&mut self) -> Moment {
        self.calls.count_call()
    }
}
