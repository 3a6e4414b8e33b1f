//! The four types of locks, of which two say that the client will ask again.

ghost use Rattle.nfs_forms.specs.LockType as forms;
ghost use Rattle.xdr.specs.Reading.{Answers};

use std::alloc::Global;
use xdr::{Measure, Wire, WireError, read_u32, write_u32};

/// Whether bytes are locked for reading or for writing, and whether the client waits for the lock (nfs_lock_type4; RFC
/// 7530, section 16.10).
#[derive(Clone, Copy, PartialEq, Eq)]
pub enum LockType {
    Read = 1,
    Write = 2,
    /// For reading, by a client that asks again until it has the lock.
    ReadWait = 3,
    /// For writing, by a client that asks again until it has the lock.
    WriteWait = 4,
}

impl Wire for LockType {
    ghost form = { forms.lock_type };

    #[tactic(auto, unfolding(crate::specs::LockType::lock_type, xdr::specs::Reading::value_at))]
    fn read(alloc: Global, bytes: &[u8]) -> Result<(LockType, &[u8]), WireError>
        ensures { Answers (λ x. (x.0, x.1.now)) result (forms.lock_type.at bytes.now) }
    {
        let (number, rest) = read_u32(bytes)?;
        match number {
            1 => Ok((LockType::Read, rest)),
            2 => Ok((LockType::Write, rest)),
            3 => Ok((LockType::ReadWait, rest)),
            4 => Ok((LockType::WriteWait, rest)),
            _ => Err(WireError::Short),
        }
    }

    #[tactic(auto, unfolding(crate::specs::LockType::lock_type))]
    fn write(&self, out: &mut Vec<u8>) -> Result<(), WireError> {
        write_u32(out, *self as u32)
    }
}

impl Measure for LockType {
    #[tactic(auto, unfolding(crate::specs::LockType::lock_type, xdr::specs::Writing::written_number))]
    fn written_len(&self) -> usize {
        4
    }
}
