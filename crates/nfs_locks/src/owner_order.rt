//! Orders lock owners, so that it is determined which conflicting lock LOCK reports.

ghost use Rattle.std.specs.Prelude.{◌≡◌};
ghost use Rattle.nfs_locks.specs.Report.{owner_order};

use nfs_forms::LockOwner;
use std::cmp::Ordering;

/// The order of lock owners: by the clientid as a number, whose upper half is the epoch, and then by their names byte
/// by byte.
pub(crate) fn owner_order(a: &LockOwner, b: &LockOwner) -> Ordering
    ensures { result ≡ owner_order a.now b.now }
{
    let by_epoch = a.client.epoch.cmp(&b.client.epoch);
    let by_number = a.client.number.cmp(&b.client.number);
    let by_name = a.name.as_slice().cmp(b.name.as_slice());
    by_epoch.then(by_number.then(by_name))
}
