//! Turns the offset and length of LOCK, LOCKT and LOCKU into a range of bytes, and back.

ghost use Rattle.std.specs.Prelude.{◌≡◌};
ghost use Rattle.nfs_ranges.specs.Bytes.{IsRangeOf, has, length_of};

use crate::Range;

/// The bytes from the offset on that the length names, if it names any: a length with all its bits set goes through
/// byte 2^64 - 1, and any other must end before that byte (RFC 7530, section 16.10).
pub fn range_of(offset: u64, length: u64) -> Option<Range>
    ensures { IsRangeOf offset length result }
{
    if length == 0 {
        return None;
    }
    if length == u64::MAX {
        return Some(Range {
            first: offset,
            last: u64::MAX,
        });
    }
    if length > u64::MAX - offset {
        return None;
    }
    Some(Range {
        first: offset,
        last: offset + (length - 1),
    })
}

impl Range {
    /// Whether the range has the byte.
    pub fn has(self, byte: u64) -> bool
        ensures { result ≡ has self byte }
    {
        self.first <= byte && byte <= self.last
    }

    /// The length by which a report names the range: all ones where it has byte 2^64 - 1, else how many bytes it has.
    pub fn length(self) -> u64
        ensures { result ≡ length_of self }
    {
        if self.last == u64::MAX {
            u64::MAX
        } else {
            self.last - self.first + 1
        }
    }
}
