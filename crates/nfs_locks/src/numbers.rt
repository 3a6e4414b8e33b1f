//! What a CLOSE takes away of a file's lock states, with their number, by which the number of all is kept.

ghost use Rattle.std.specs.Prelude.{◌≡◌, ◌+◌, length};
ghost use Rattle.nfs_locks.specs.Locks.{is_under, without};
ghost use Rattle.nfs_locks.specs.StoredLocks.{locks_seen};

use crate::file_locks::FileLocks;

/// Removes the lock states of the file under the open with this number, and tells how many there were.
pub(crate) fn close_in(file: &mut FileLocks, open_number: u32) -> usize
    ensures locks { locks_seen file.new.states
        ≡ without (is_under open_number) (locks_seen file.old.states) }
    ensures gone { result + length (locks_seen file.new.states)
        ≡ length (locks_seen file.old.states) }
    ensures names { file.new.names ≡ file.old.names }
{
    let before = file.len();
    file.close(open_number);
    before - file.len()
}
