//! The conflicting lock that LOCK and LOCKT return with NFS4ERR_DENIED.

ghost use Rattle.nfs_forms.specs.LockDenied as forms;

use crate::{LockOwner, LockType};
use std::alloc::Global;
use xdr::{Measure, Wire, WireError, write_four};

/// The lock of another owner for which a lock is denied (LOCK4denied; RFC 7530, section 16.10).
#[derive(Clone, PartialEq, Drop)]
pub struct LockDenied {
    /// The first byte of the stretch that the owner holds.
    pub offset: u64,
    /// How many bytes there are in the stretch; all ones if it reaches the last byte.
    pub length: u64,
    pub locktype: LockType,
    pub owner: LockOwner,
}

impl Wire for LockDenied {
    ghost form = { forms.lock_denied };

    #[tactic(auto, unfolding(crate::specs::LockDenied::lock_denied))]
    fn read(alloc: Global, bytes: &[u8]) -> Result<(LockDenied, &[u8]), WireError> {
        let (offset, rest) = u64::read(alloc, bytes)?;
        let (length, rest) = u64::read(alloc, rest)?;
        let (locktype, rest) = LockType::read(alloc, rest)?;
        let (owner, rest) = LockOwner::read(alloc, rest)?;
        let denied = LockDenied {
            offset,
            length,
            locktype,
            owner,
        };
        Ok((denied, rest))
    }

    #[tactic(auto, unfolding(crate::specs::LockDenied::lock_denied))]
    fn write(&self, out: &mut Vec<u8>) -> Result<(), WireError> {
        write_four(out, &self.offset, &self.length, &self.locktype, &self.owner)
    }
}

impl Measure for LockDenied {
    #[tactic(auto, unfolding(crate::specs::LockDenied::lock_denied))]
    fn written_len(&self) -> usize {
        self.offset.written_len()
            + self.length.written_len()
            + self.locktype.written_len()
            + self.owner.written_len()
    }
}
