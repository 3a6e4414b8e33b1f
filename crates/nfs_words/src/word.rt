//! A word as a number: how it is put together, and read.
ghost use Rattle.std.specs.Prelude.{◌≡◌, ◌≤◌};
ghost use Rattle.nfs_owners.specs.Slots.{generation_of};
ghost use Rattle.nfs_words.specs.Calls.{state_of};
ghost use Rattle.nfs_words.specs.Words.{closed_part, part_in, word_with};

use nfs_leases::LeaseState;
use nfs_owners::generation_of;
use nfs_state::Moment;

/// How many parts a generation has.
const PARTS: u64 = 1 << 40;

/// The part of the word of a lease that was closed or retired.
pub(crate) const CLOSED: u64 = PARTS - 1;

/// The word of the client's generation with this part.
pub(crate) fn word_with(client: u32, part: u64) -> u64
    requires { part ≤ closed_part }
    ensures { result ≡ word_with (generation_of client) part }
{
    u64::from(generation_of(client)) * PARTS + part
}

/// What the client's generation reads in a word.
pub(crate) fn part_in(client: u32, word: u64) -> u64
    ensures { result ≡ part_in (generation_of client) word }
{
    let first = word_with(client, 0);
    if word < first {
        return 0;
    }
    if word - first < PARTS {
        word - first
    } else {
        CLOSED
    }
}

/// The lease that a part shows.
pub(crate) fn state_of(part: u64) -> LeaseState
    requires { part ≤ closed_part }
    ensures { result ≡ state_of part }
{
    if part == 0 {
        return LeaseState::Vacant;
    }
    match Moment::new(part - 1) {
        Some(moment) => LeaseState::Open(moment),
        None => LeaseState::Closed,
    }
}
