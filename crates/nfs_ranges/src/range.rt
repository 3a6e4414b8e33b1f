//! Ranges of bytes, by their first and last byte, since a range may have byte 2^64 - 1.

ghost use Rattle.std.specs.Prelude.{◌≤◌};

/// Bytes of a file, one after the other, from the first to the last. It has one byte at least, and may have byte
/// 2^64 - 1.
#[derive(Clone, Copy, PartialEq, Eq)]
pub struct Range {
    pub first: u64,
    pub last: u64,
    pub ghost ordered: { first ≤ last },
}
