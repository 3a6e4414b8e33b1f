//! Gives each state a number that no other state had.

ghost use Rattle.std.specs.Prelude.{◌≡◌, ◌<◌, ◌+◌, ◌-◌, ◌^◌};
ghost use Rattle.nfs_owners.specs.Numbers.{Gives, NumbersRise};

use std::marker::Model;

/// The numbers of states (RFC 7530, section 9.1.4). They go up from 1, and none is given twice. Contracts see the one
/// that was given last, or 0.
#[derive(Drop)]
pub struct Numbers {
    last: u32,
}

impl Model for Numbers {
    ghost use Rattle.std.specs.Prelude.{ℕ};

    ghost Value = { ℕ };

    ghost view = { λ n. n.last };
}

impl Numbers {
    /// The numbers of a run in which no number was given.
    pub fn new() -> Numbers
        ensures { result ≡ 0 }
    {
        Numbers { last: 0 }
    }

    /// The number that is given next.
    pub fn upcoming(&self) -> u32
        requires { self.now < 2 ^ 32 - 1 }
        ensures { result ≡ self.now + 1 }
    {
        self.last + 1
    }

    /// Gives the next number.
    pub fn next(&mut self) -> u32
        requires { self.old < 2 ^ 32 - 1 }
        ensures { Gives self.old result self.new }
    {
        self.last += 1;
        self.last
    }
}

/// The law that each number is above all that were given before it.
pub fn numbers_rise()
    ensures { NumbersRise }
{}
