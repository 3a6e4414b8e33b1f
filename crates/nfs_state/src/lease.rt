//! Says when a lease is over.

ghost use Rattle.std.specs.Prelude.{◌≡◌};
ghost use Rattle.nfs_state.specs.Lease.{is_over};

use crate::Moment;

/// Whether a lease of so many seconds, which was renewed last at `seen`, is over at `now`.
pub fn is_over(seen: Moment, lease: u32, now: Moment) -> bool
    ensures { result ≡ is_over seen lease now }
{
    seen.seconds() + u64::from(lease) < now.seconds()
}
