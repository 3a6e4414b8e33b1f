//! The delegation in OPEN's result, of whose fields this server varies only the stateid.

ghost use Rattle.nfs_forms.specs.OpenDelegation as forms;
ghost use Rattle.nfs_forms.specs.OpenDelegation.{not_recalled};
ghost use Rattle.nfs_forms.specs.Stateid.{stateid};
ghost use Rattle.xdr.specs.Form.{◌and◌};
ghost use Rattle.xdr.specs.Reading.{Answers};

use crate::{DelegationType, Stateid};
use std::alloc::Global;
use xdr::{
    Measure, Wire, WireError, read_constant, write_five, write_four, write_three, write_two,
};

// FALSE, the value of `recall`, as a number.
const NOT_RECALLED: u32 = 0;

// NFS_LIMIT_SIZE: the limit is a number of bytes.
const LIMIT_SIZE: u32 = 1;

// The greatest length of a file in bytes, which is written as a number of eight bytes.
const FILE_LIMIT: u32 = 65_536;

/// The delegation that an open is given, with its stateid (open_delegation4; RFC 7530, section 16.16).
#[derive(Clone, Copy, PartialEq, Eq)]
pub enum OpenDelegation {
    None,
    Read(Stateid),
    Write(Stateid),
}

// The permissions that come with a delegation: an entry that permits nobody anything (nfsace4).
#[derive(Clone, Copy)]
struct EmptyAce {}

// How far a file may grow under a write delegation: to 65,536 bytes (nfs_space_limit4).
#[derive(Clone, Copy)]
struct SpaceLimit {}

impl Wire for OpenDelegation {
    ghost form = { forms.open_delegation };

    #[tactic(auto, unfolding(crate::specs::OpenDelegation::open_delegation, crate::specs::OpenDelegation::read_delegation, crate::specs::OpenDelegation::write_delegation))]
    fn read(alloc: Global, bytes: &[u8]) -> Result<(OpenDelegation, &[u8]), WireError>
        ensures { Answers (λ x. (x.0, x.1.now)) result (forms.open_delegation.at bytes.now) }
    {
        let (kind, rest) = DelegationType::read(alloc, bytes)?;
        match kind {
            DelegationType::None => Ok((OpenDelegation::None, rest)),
            DelegationType::Read => {
                let (stateid, rest) = read_stateid(alloc, rest)?;
                let (_, rest) = EmptyAce::read(alloc, rest)?;
                Ok((OpenDelegation::Read(stateid), rest))
            }
            DelegationType::Write => {
                let (stateid, rest) = read_stateid(alloc, rest)?;
                let (_, rest) = SpaceLimit::read(alloc, rest)?;
                let (_, rest) = EmptyAce::read(alloc, rest)?;
                Ok((OpenDelegation::Write(stateid), rest))
            }
        }
    }

    #[tactic(auto, unfolding(crate::specs::OpenDelegation::open_delegation, crate::specs::OpenDelegation::read_delegation, crate::specs::OpenDelegation::write_delegation))]
    fn write(&self, out: &mut Vec<u8>) -> Result<(), WireError> {
        match self {
            OpenDelegation::None => DelegationType::None.write(out),
            OpenDelegation::Read(stateid) => {
                let ace = EmptyAce {};
                write_four(out, &DelegationType::Read, stateid, &NOT_RECALLED, &ace)
            }
            OpenDelegation::Write(stateid) => {
                let kind = DelegationType::Write;
                write_five(
                    out,
                    &kind,
                    stateid,
                    &NOT_RECALLED,
                    &SpaceLimit {},
                    &EmptyAce {},
                )
            }
        }
    }
}

// Reads the stateid of a delegation, and that it isn't recalled.
fn read_stateid(alloc: Global, bytes: &[u8]) -> Result<(Stateid, &[u8]), WireError>
    ensures { Answers (λ x. ((x.0, tt), x.1.now)) result ((stateid and not_recalled).at bytes.now) }
{
    let (stateid, rest) = Stateid::read(alloc, bytes)?;
    let (_, rest) = read_constant(rest, NOT_RECALLED)?;
    Ok((stateid, rest))
}

impl Measure for OpenDelegation {
    #[tactic(auto, unfolding(crate::specs::OpenDelegation::open_delegation, crate::specs::OpenDelegation::read_delegation, crate::specs::OpenDelegation::write_delegation, crate::specs::OpenDelegation::empty_ace, crate::specs::OpenDelegation::space_limit, crate::specs::DelegationType::delegation_type, xdr::specs::Writing::written_number))]
    fn written_len(&self) -> usize {
        match self {
            OpenDelegation::None => 4,
            OpenDelegation::Read(stateid) => 4 + stateid.written_len() + 20,
            OpenDelegation::Write(stateid) => 4 + stateid.written_len() + 32,
        }
    }
}

impl Wire for EmptyAce {
    ghost form = { forms.empty_ace };

    #[tactic(auto, unfolding(crate::specs::OpenDelegation::empty_ace))]
    fn read(alloc: Global, bytes: &[u8]) -> Result<(EmptyAce, &[u8]), WireError>
        ensures { Answers (λ x. (x.0, x.1.now)) result (forms.empty_ace.at bytes.now) }
    {
        let (_, rest) = read_constant(bytes, 0)?;
        let (_, rest) = read_constant(rest, 0)?;
        let (_, rest) = read_constant(rest, 0)?;
        let (_, rest) = read_constant(rest, 0)?;
        Ok((EmptyAce {}, rest))
    }

    #[tactic(auto, unfolding(crate::specs::OpenDelegation::empty_ace))]
    fn write(&self, out: &mut Vec<u8>) -> Result<(), WireError> {
        write_four(out, &0u32, &0u32, &0u32, &0u32)
    }
}

impl Wire for SpaceLimit {
    ghost form = { forms.space_limit };

    #[tactic(auto, unfolding(crate::specs::OpenDelegation::space_limit))]
    fn read(alloc: Global, bytes: &[u8]) -> Result<(SpaceLimit, &[u8]), WireError>
        ensures { Answers (λ x. (x.0, x.1.now)) result (forms.space_limit.at bytes.now) }
    {
        let (_, rest) = read_constant(bytes, LIMIT_SIZE)?;
        let (_, rest) = read_constant(rest, 0)?;
        let (_, rest) = read_constant(rest, FILE_LIMIT)?;
        Ok((SpaceLimit {}, rest))
    }

    #[tactic(auto, unfolding(crate::specs::OpenDelegation::space_limit))]
    fn write(&self, out: &mut Vec<u8>) -> Result<(), WireError> {
        write_three(out, &LIMIT_SIZE, &0u32, &FILE_LIMIT)
    }
}
