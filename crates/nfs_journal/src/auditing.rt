//! Audits a journal: a new core has to give the journal's answers again.

ghost use Rattle.nfs_journal.specs.Audits.{Audits};

use crate::{AuditError, FiledJournal};
use nfs_core::{Core, FollowError, Seeds, at_most_one_state};
use std::alloc::Global;

/// A core to which the journal leads, with these seeds. WrongAnswer with the number of the first entry that can't
/// follow those before it, if the journal isn't lawful; never Format.
pub fn audit(alloc: Global, journal: FiledJournal, seeds: Seeds) -> Result<Core, AuditError>
    ensures { Audits result journal }
{
    at_most_one_state();
    let FiledJournal {
        opening,
        tree,
        entries,
    } = journal;
    let start = opening.start();
    let Ok(mut core) = Core::new(alloc, &tree, start.lease, start.epoch, start.policy, seeds) else {
        return Err(AuditError::Memory);
    };
    let mut number = 0;
    for entry in entries {
        match core.follow(entry) {
            Ok(entered) => number = entered + 1,
            Err(FollowError::NotNext) => return Err(AuditError::WrongAnswer(number)),
            Err(FollowError::Memory) => return Err(AuditError::Memory),
        }
    }
    Ok(core)
}
