//! The two change attributes that OPEN returns for its directory.

ghost use Rattle.nfs_forms.specs.ChangeInfo as forms;
ghost use Rattle.xdr.specs.Reading.{Answers};

use std::alloc::Global;
use xdr::{Measure, Wire, WireError, read_flag, read_u64, write_three};

/// The change attribute of a directory before and after an operation (change_info4; RFC 7530, section 2.2.6).
#[derive(Clone, Copy, PartialEq, Eq)]
pub struct ChangeInfo {
    /// Whether nothing else changed the directory between the two.
    pub atomic: bool,
    pub before: u64,
    pub after: u64,
}

impl Wire for ChangeInfo {
    ghost form = { forms.change_info };

    #[tactic(auto, unfolding(crate::specs::ChangeInfo::change_info))]
    fn read(alloc: Global, bytes: &[u8]) -> Result<(ChangeInfo, &[u8]), WireError>
        ensures { Answers (λ x. (x.0, x.1.now)) result (forms.change_info.at bytes.now) }
    {
        let (atomic, rest) = read_flag(bytes)?;
        let (before, rest) = read_u64(rest)?;
        let (after, rest) = read_u64(rest)?;
        let change = ChangeInfo {
            atomic,
            before,
            after,
        };
        Ok((change, rest))
    }

    #[tactic(auto, unfolding(crate::specs::ChangeInfo::change_info))]
    fn write(&self, out: &mut Vec<u8>) -> Result<(), WireError> {
        write_three(out, &self.atomic, &self.before, &self.after)
    }
}

impl Measure for ChangeInfo {
    #[tactic(auto, unfolding(crate::specs::ChangeInfo::change_info, xdr::specs::Writing::written_number))]
    fn written_len(&self) -> usize {
        20
    }
}
