//! Splits a client's number into a slot and a generation, so that lease tables have a fixed size.

ghost use Rattle.std.specs.Prelude.{◌≡◌, ◌<◌};
ghost use Rattle.nfs_owners.specs.Slots.{generation_of, slot_of};

/// How many slots there are for the numbers of clients, with slot 0, of which no number is given.
pub const SLOTS: u32 = 256;

/// How many generations a slot has.
pub const GENERATIONS: u32 = 1 << 24;

/// The slot of a client's number.
pub fn slot_of(number: u32) -> u32
    ensures slot { result ≡ slot_of number }
    ensures range { result < SLOTS }
{
    number % SLOTS
}

/// Which generation of its slot a client's number is, from 0 on.
pub fn generation_of(number: u32) -> u32
    ensures { result ≡ generation_of number }
{
    number / SLOTS
}
