//! Laws that the questions to an owner's ranges have one answer each.

ghost use Rattle.std.specs.Prelude.{◌≡◌, ◌≤◌, ℕ, [], Option};
ghost use Rattle.nfs_ranges.specs.Bytes.{IsRangeOf};
ghost use Rattle.nfs_ranges.specs.Modes.{with_change, modes_of};
ghost use Rattle.nfs_ranges.specs.Questions.{IsFirstConflict, IsRunAt};
ghost use Rattle.nfs_ranges.specs.Runs.{runs};
ghost use Rattle.nfs_ranges.specs.declared.mode.Mode.{Mode};
ghost use Rattle.nfs_ranges.specs.declared.piece.Piece.{Piece};
ghost use Rattle.nfs_ranges.specs.declared.range.Range.{Range};

/// An offset and a length name the bytes of one range at most.
pub fn at_most_one_range()
    ensures { (offset length : ℕ) (a b : Option Range) → IsRangeOf offset length a →
        IsRangeOf offset length b → a ≡ b }
{}

/// There is one answer to the question for the first conflict.
pub fn at_most_one_first_conflict()
    ensures { (modes : ℕ → Option Mode) (range : Range) (asked : Mode)
        (a b : Option ℕ) → IsFirstConflict modes range asked a →
        IsFirstConflict modes range asked b → a ≡ b }
{}

/// There is one answer to the question for the run at a byte.
pub fn at_most_one_run()
    ensures { (modes : ℕ → Option Mode) (byte : ℕ) (a b : Option (Range × Mode)) →
        IsRunAt modes byte a → IsRunAt modes byte b → a ≡ b }
{}

/// After the first change of an owner that holds nothing there is one run at most.
pub fn first_change_has_place()
    ensures { (change : Piece) → runs (with_change change (modes_of [])) ≤ 1 }
{}
