//! Makes ranges with room for a change, before a LOCK is committed.

ghost use Rattle.std.specs.Prelude.{◌≡◌, ◌<◌, [], IfOk, IsOk, OnOk};

use nfs_ranges::Ranges;
use std::alloc::{AllocError, Global};

/// Ranges without bytes, which have room for a change.
pub(crate) fn roomy_ranges(alloc: Global) -> Result<Ranges, AllocError>
    ensures free { IfOk result (λ r. r.pieces ≡ []) }
    ensures room { IfOk result (λ r. 0 < r.room) }
{
    let mut ranges = Ranges::new(alloc);
    reserve(&mut ranges)?;
    Ok(ranges)
}

/// Makes room for a change of the ranges.
pub(crate) fn reserve(ranges: &mut Ranges) -> Result<(), AllocError>
    ensures pieces { ranges.new.pieces ≡ ranges.old.pieces }
    ensures room { OnOk result (0 < ranges.new.room) }
    ensures ready { 0 < ranges.old.room → IsOk result }
{
    match ranges.reserve() {
        Ok(()) => Ok(()),
        Err(_) => Err(AllocError),
    }
}
