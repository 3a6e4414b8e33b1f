//! LOCK and LOCKU as one call each, by the names of the RFC, over the calls that the program makes in their place.

ghost use Rattle.std.specs.Prelude.{◌≡◌, ◌<◌, ◌↔◌, IsErrOf, None, OnErr, OnOk, Some};
ghost use Rattle.nfs_ranges.specs.Modes.{with_mode};
ghost use Rattle.nfs_ranges.specs.RoomyRanges.{modes_after, modes_in};
ghost use Rattle.nfs_ranges.specs.Runs.{runs};
ghost use Rattle.nfs_ranges.specs.declared.limits.TheConstants.{RUN_LIMIT};

use crate::{Mode, Piece, Range, Ranges, RangesError};

impl Ranges {
    /// LOCK (RFC 7530, section 16.10): the owner holds the bytes in this mode, also those that it held in another.
    pub fn lock(&mut self, range: Range, mode: Mode) -> Result<(), RangesError>
        ensures ok { OnOk result (
            modes_in self.new ≡ with_mode range (Some mode) (modes_in self.old)) }
        ensures full { IsErrOf result RangesError.Full
            ↔ (RUN_LIMIT < runs (with_mode range (Some mode) (modes_in self.old))) }
        ensures memory { IsErrOf result RangesError.Memory → self.old.room ≡ 0 }
        ensures err { OnErr result (self.new ≡ self.old) }
    {
        let mode = Some(mode);
        self.try_change(Piece { range, mode })
    }

    /// LOCKU (RFC 7530, section 16.12): the owner holds none of the bytes, whether it held them or not.
    pub fn unlock(&mut self, range: Range) -> Result<(), RangesError>
        ensures ok { OnOk result (
            modes_in self.new ≡ with_mode range None (modes_in self.old)) }
        ensures full { IsErrOf result RangesError.Full
            ↔ (RUN_LIMIT < runs (with_mode range None (modes_in self.old))) }
        ensures memory { IsErrOf result RangesError.Memory → self.old.room ≡ 0 }
        ensures err { OnErr result (self.new ≡ self.old) }
    {
        self.try_change(Piece { range, mode: None })
    }

    // Makes the change, unless the runs after it are too many, or memory for it is refused.
    fn try_change(&mut self, change: Piece) -> Result<(), RangesError>
        ensures ok { OnOk result (modes_in self.new ≡ modes_after change self.old) }
        ensures full { IsErrOf result RangesError.Full
            ↔ (RUN_LIMIT < runs (modes_after change self.old)) }
        ensures memory { IsErrOf result RangesError.Memory → self.old.room ≡ 0 }
        ensures err { OnErr result (self.new ≡ self.old) }
    {
        self.make_ready(change)?;
        self.change(change);
        Ok(())
    }

    // Whether the change may be made; there is room for it then.
    fn make_ready(&mut self, change: Piece) -> Result<(), RangesError>
        ensures pieces { self.new.pieces ≡ self.old.pieces }
        ensures room { OnOk result (0 < self.new.room) }
        ensures full { IsErrOf result RangesError.Full
            ↔ (RUN_LIMIT < runs (modes_after change self.old)) }
        ensures memory { IsErrOf result RangesError.Memory → self.old.room ≡ 0 }
        ensures err { OnErr result (self.new ≡ self.old) }
    {
        if !self.has_place_for(change) {
            return Err(RangesError::Full);
        }
        self.reserve()
    }
}
