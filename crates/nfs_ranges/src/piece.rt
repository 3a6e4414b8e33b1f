//! A change of a lock owner's bytes: a range, with its new mode or none.

use crate::{Mode, Range};

/// The bytes of a range in one mode, or held no longer. A list of pieces gives each byte the mode of the last piece
/// that has it.
#[derive(Clone, Copy, PartialEq, Eq)]
pub struct Piece {
    pub range: Range,
    pub mode: Option<Mode>,
}
