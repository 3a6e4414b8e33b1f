//! How stable WRITE's bytes are to be, and are.

ghost use Rattle.nfs_forms.specs.StableHow as forms;
ghost use Rattle.xdr.specs.Reading.{Answers};

use std::alloc::Global;
use xdr::{Measure, Wire, WireError, read_u32, write_u32};

/// How much of what is written is to be, or is, in stable storage when the server answers (stable_how4; RFC 7530,
/// section 16.36).
#[derive(Clone, Copy, PartialEq, Eq)]
pub enum StableHow {
    /// As much as the server likes.
    Unstable = 0,
    /// The bytes, with what is needed to find them again.
    DataSync = 1,
    /// The bytes, with all that the server keeps of the file.
    FileSync = 2,
}

impl Wire for StableHow {
    ghost form = { forms.stable_how };

    #[tactic(auto, unfolding(crate::specs::StableHow::stable_how, xdr::specs::Reading::value_at))]
    fn read(alloc: Global, bytes: &[u8]) -> Result<(StableHow, &[u8]), WireError>
        ensures { Answers (λ x. (x.0, x.1.now)) result (forms.stable_how.at bytes.now) }
    {
        let (number, rest) = read_u32(bytes)?;
        match number {
            0 => Ok((StableHow::Unstable, rest)),
            1 => Ok((StableHow::DataSync, rest)),
            2 => Ok((StableHow::FileSync, rest)),
            _ => Err(WireError::Short),
        }
    }

    #[tactic(auto, unfolding(crate::specs::StableHow::stable_how))]
    fn write(&self, out: &mut Vec<u8>) -> Result<(), WireError> {
        write_u32(out, *self as u32)
    }
}

impl Measure for StableHow {
    #[tactic(auto, unfolding(crate::specs::StableHow::stable_how, xdr::specs::Writing::written_number))]
    fn written_len(&self) -> usize {
        4
    }
}
