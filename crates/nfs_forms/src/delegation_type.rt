//! The kinds of delegations, as OPEN's claims and results number them.

ghost use Rattle.nfs_forms.specs.DelegationType as forms;
ghost use Rattle.xdr.specs.Reading.{Answers};

use std::alloc::Global;
use xdr::{Wire, WireError, read_u32, write_u32};

/// Which delegation an open is given, if any (open_delegation_type4; RFC 7530, section 16.16).
#[derive(Clone, Copy, PartialEq, Eq)]
pub enum DelegationType {
    None = 0,
    Read = 1,
    Write = 2,
}

impl Wire for DelegationType {
    ghost form = { forms.delegation_type };

    #[tactic(auto, unfolding(crate::specs::DelegationType::delegation_type, xdr::specs::Reading::value_at))]
    fn read(alloc: Global, bytes: &[u8]) -> Result<(DelegationType, &[u8]), WireError>
        ensures { Answers (λ x. (x.0, x.1.now)) result (forms.delegation_type.at bytes.now) }
    {
        let (number, rest) = read_u32(bytes)?;
        match number {
            0 => Ok((DelegationType::None, rest)),
            1 => Ok((DelegationType::Read, rest)),
            2 => Ok((DelegationType::Write, rest)),
            _ => Err(WireError::Short),
        }
    }

    #[tactic(auto, unfolding(crate::specs::DelegationType::delegation_type))]
    fn write(&self, out: &mut Vec<u8>) -> Result<(), WireError> {
        write_u32(out, *self as u32)
    }
}
