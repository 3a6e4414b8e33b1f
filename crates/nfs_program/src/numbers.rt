//! States the sizes by which a journal's file is written as a law, so that a wrong constant fails the proof.

ghost use Rattle.std.specs.Prelude.{◌≡◌};

use crate::journal_file::BUFFER_LEN;
use crate::pieces::WAIT_LIMIT;

/// The limits by which a journal's file is written: how many bytes there is room for, and after how many they are
/// written.
pub fn limits_of_files()
    ensures { (BUFFER_LEN ≡ 524288) × (WAIT_LIMIT ≡ 65536) }
{}
