//! The trait of lease tables, by which one sweep serves both a plain list and words that threads share.

ghost use Rattle.std.specs.Prelude.{◌≡◌, ℕ, Bool, IsTrue, true, false};
ghost use Rattle.nfs_leases.specs.BookEvent.{BookEvent, Look, Renew, Close, Open, Retire, IsAloneIn};
ghost use Rattle.nfs_leases.specs.BookEvent.{is_done, is_known, is_renewed, shows_open, shows_opened};
ghost use Rattle.nfs_leases.specs.BookEvent.{is_open_after, was_opened_after};
ghost use Rattle.nfs_state.specs.Lease.{is_over};

use crate::{Closing, LeaseState, Renewal};
use nfs_state::Moment;

/// The leases of clients, by the clients' numbers, in the hands of the one who opens, closes and retires them. Others
/// may renew a lease at any time, also between two calls here: so a look may show a later moment than the last call
/// left, and the next call may meet a later one than the look showed. A client's number is a generation of a slot. Its
/// lease is opened once, while none of its slot is open and no later one of its slot was opened, and is closed or
/// retired for good. No call takes memory.
pub trait LeaseBook {
    /// How long a lease lasts without a renewal, in seconds.
    ghost lease: { Self → ℕ };
    /// The client's lease is open: it was opened, and neither closed nor retired.
    ghost is_open: { Self → ℕ → Bool };
    /// The client's lease was opened, or that of a later generation of its slot was, whatever became of them.
    ghost was_opened: { Self → ℕ → Bool };
    /// The call, with its answer, leads from the one book to the other.
    ghost happens: { Self → BookEvent → Self → Type 0 };

    /// Shows a client's lease.
    fn look(&mut self, client: u32) -> LeaseState
        ensures happens { happens self.old (Look client result) self.new }
        ensures shows_open { shows_open result ≡ is_open self.old client }
        ensures shows_opened { shows_opened result ≡ was_opened self.old client };

    /// Renews a client's lease, where it is open. A moment before the last renewal's doesn't lower it.
    fn renew(&mut self, client: u32, moment: Moment) -> Renewal
        ensures happens { happens self.old (Renew client moment result) self.new }
        ensures renewed { is_renewed result ≡ is_open self.old client }
        ensures known { is_known result ≡ was_opened self.old client };

    /// Closes a client's lease that was seen to be open and renewed last at `seen`, where it is still so.
    fn close(&mut self, client: u32, seen: Moment, now: Moment) -> Closing
        requires due { IsTrue (is_over seen (lease self.old) now) }
        ensures happens { happens self.old (Close client seen now result) self.new }
        ensures was_open { is_done result ≡ true → is_open self.old client ≡ true };

    /// Opens the lease of a client that never had one, while none of its slot is open.
    fn open(&mut self, client: u32, moment: Moment)
        requires fresh { was_opened self.old client ≡ false }
        requires alone { IsAloneIn (is_open self.old) client }
        ensures happens { happens self.old (Open client moment) self.new };

    /// Closes a client's lease, however late it was renewed.
    fn retire(&mut self, client: u32)
        requires opened { was_opened self.old client ≡ true }
        ensures happens { happens self.old (Retire client) self.new };

    // The laws: what each call means for the leases.

    /// No call changes how long a lease lasts.
    ghost keeps_lease: { (old : Self) (event : BookEvent) (new : Self) →
        happens old event new → lease new ≡ lease old };

    /// Which leases are open after a call.
    ghost open_follows: { (old : Self) (event : BookEvent) (new : Self) →
        happens old event new →
        (client : ℕ) → is_open new client ≡ is_open_after event client (is_open old client) };

    /// Which leases were opened by the end of a call.
    ghost opened_follows: { (old : Self) (event : BookEvent) (new : Self) →
        happens old event new →
        (client : ℕ) →
        was_opened new client ≡ was_opened_after event client (was_opened old client) };

    /// A lease that is open was opened.
    ghost open_was_opened: { (book : Self) (client : ℕ) →
        is_open book client ≡ true → was_opened book client ≡ true };
}
