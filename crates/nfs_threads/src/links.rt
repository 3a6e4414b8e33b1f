//! The trait of what a worker serves, so that workers can be proved and tried without sockets.

ghost use Rattle.std.specs.Prelude.{◌≡◌, ◌-◌, ◌^◌, ◌<◌, IfNone, IfOk, IfSome, OnErr, false, true};

use nfs_server::{Clock, Duplex, ServeError};
use std::alloc::AllocError;

/// What a worker serves: connections, one after the other. Each gives a device and a clock.
pub trait Links {
    type Device: Duplex + Drop + Send;

    type Clock: Clock + Drop + Send;

    /// How the next connection may come: the state before, what it gives, and the state after.
    ghost opens: { Self → Self.Device → Self.Clock → Self → Type 0 };

    /// How there may be no further connection: the state before, and the state after.
    ghost stops: { Self → Self → Type 0 };

    /// The next connection, for which this may wait; or none, if no further one is to be served.
    fn next(&mut self) -> Option<(Self::Device, Self::Clock)>
        ensures opens { IfSome result (λ r. opens self.old r.0 r.1 self.new) }
        ensures stops { IfNone result (stops self.old self.new) }
        ensures reads { IfSome result (λ r. Self.Device.read_failures r.0 < 2 ^ 64 - 1) }
        ensures writes { IfSome result (λ r. Self.Device.write_failures r.0 < 2 ^ 64 - 1) };

    /// Is told that memory is refused for what the next connection needs. Where it may come back, this waits for a
    /// while, and returns whether it is to be tried again; if not, no further connection is to be served.
    fn wait_for_memory(&mut self) -> Result<bool, AllocError>
        ensures same { IfOk result (λ is_tried. is_tried ≡ true → self.new ≡ self.old) }
        ensures stops { IfOk result (λ is_tried. is_tried ≡ false → stops self.old self.new) }
        ensures refused { OnErr result (self.new ≡ self.old) };

    /// Is told how the connection that came last has ended.
    fn end(&self, outcome: Result<usize, ServeError>);
}
