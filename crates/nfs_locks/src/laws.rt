//! Laws that no byte is held by two owners, unless both read, and that LOCK's report is unique.

ghost use Rattle.std.specs.Prelude.{◌≡◌, ℕ, Bool, true, List, Option, IsTrue};
ghost use Rattle.std.specs.List.{AllByRecursion};
ghost use Rattle.nfs_forms.specs.declared.lock_owner.LockOwner.{LockOwner};
ghost use Rattle.nfs_locks.specs.Laws.{AllLocksAreCompatible, IsFreeFor};
ghost use Rattle.nfs_locks.specs.Locks.{ByteLocks, is_lock_of, is_numbered, with_first_lock, with_lock_change, without};
ghost use Rattle.nfs_locks.specs.Report.{IsReport};
ghost use Rattle.nfs_locks.specs.Report as reports;
ghost use Rattle.nfs_locks.specs.declared.first_lock.FirstLock.{FirstLock};
ghost use Rattle.nfs_ranges.specs.declared.mode.Mode.{Mode};
ghost use Rattle.nfs_ranges.specs.declared.piece.Piece.{Piece};
ghost use Rattle.nfs_ranges.specs.declared.range.Range.{Range};

use nfs_ranges::at_most_one_run;

/// If no byte of a file is held by two owners unless both read, it stays so: when an owner makes its first lock or
/// another change and no other owner's lock is in the way, where it alone has lock states with the number, and when
/// lock states are removed.
pub fn locks_stay_compatible()
    ensures begin { (first : FirstLock) (number : ℕ) (locks : List ByteLocks) →
        AllLocksAreCompatible locks → IsFreeFor first.owner first.change locks →
        AllLocksAreCompatible (with_first_lock first number locks) }
    ensures change { (number : ℕ) (change : Piece) (owner : LockOwner) (locks : List ByteLocks) →
        AllLocksAreCompatible locks →
        AllByRecursion (λ l. IsTrue (is_numbered number l) → IsTrue (is_lock_of owner l)) locks →
        IsFreeFor owner change locks →
        AllLocksAreCompatible (with_lock_change number change locks) }
    ensures removal { (test : ByteLocks → Bool) (locks : List ByteLocks) →
        AllLocksAreCompatible locks → AllLocksAreCompatible (without test locks) }
{}

/// There is at most one report.
pub fn at_most_one_report()
    ensures { (locks : List ByteLocks) (owner : LockOwner) (range : Range) (mode : Mode)
        (a b : Option reports.Report) →
        IsReport locks owner range mode a → IsReport locks owner range mode b → a ≡ b }
{
    at_most_one_run();
}
