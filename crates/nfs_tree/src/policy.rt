//! What a tree's document can choose besides files: delegations, callbacks, CLOSE under locks, and the profile.

ghost use Rattle.nfs_tree.specs.PolicyForm as forms;
ghost use Rattle.xdr.specs.Reading.{Answers};

use crate::Profile;
use std::alloc::Global;
use xdr::{Wire, WireError, read_u32, write_u32};

/// Which delegations the server gives.
#[derive(Clone, Copy, PartialEq, Eq)]
pub enum Delegations {
    None,
    /// Only read delegations.
    Read,
    All,
}

/// What the server assumes about the path to a client's callbacks before it has used the path.
#[derive(Clone, Copy, PartialEq, Eq)]
pub enum Callbacks {
    /// The server assumes nothing: it tests the path first.
    Probe,
    /// The server assumes that the path works.
    Assume,
}

/// What CLOSE does where a lock state of the open holds a byte (RFC 7530, section 16.2).
#[derive(Clone, Copy, PartialEq, Eq)]
pub enum CloseLocks {
    /// CLOSE frees the bytes.
    Free,
    /// CLOSE is refused with NFS4ERR_LOCKS_HELD.
    Refuse,
}

/// The choices that a document makes for the server.
#[derive(Clone, Copy, PartialEq, Eq)]
pub struct Policy {
    pub delegations: Delegations,
    pub callbacks: Callbacks,
    pub close_locks: CloseLocks,
    pub profile: Profile,
}

/// The policy if a document doesn't contain one.
pub const DEFAULT_POLICY: Policy = Policy {
    delegations: Delegations::All,
    callbacks: Callbacks::Probe,
    close_locks: CloseLocks::Free,
    profile: Profile::Plain,
};

impl Wire for Delegations {
    ghost form = { forms.delegations };

    #[tactic(auto, unfolding(crate::specs::PolicyForm::delegations, xdr::specs::Reading::value_at))]
    fn read(alloc: Global, bytes: &[u8]) -> Result<(Delegations, &[u8]), WireError>
        ensures { Answers (λ x. (x.0, x.1.now)) result (forms.delegations.at bytes.now) }
    {
        let (number, rest) = read_u32(bytes)?;
        match number {
            0 => Ok((Delegations::None, rest)),
            1 => Ok((Delegations::Read, rest)),
            2 => Ok((Delegations::All, rest)),
            _ => Err(WireError::Short),
        }
    }

    #[tactic(auto, unfolding(crate::specs::PolicyForm::delegations))]
    fn write(&self, out: &mut Vec<u8>) -> Result<(), WireError> {
        write_u32(out, *self as u32)
    }
}

impl Wire for Callbacks {
    ghost form = { forms.callbacks };

    #[tactic(auto, unfolding(crate::specs::PolicyForm::callbacks, xdr::specs::Reading::value_at))]
    fn read(alloc: Global, bytes: &[u8]) -> Result<(Callbacks, &[u8]), WireError>
        ensures { Answers (λ x. (x.0, x.1.now)) result (forms.callbacks.at bytes.now) }
    {
        let (number, rest) = read_u32(bytes)?;
        match number {
            0 => Ok((Callbacks::Probe, rest)),
            1 => Ok((Callbacks::Assume, rest)),
            _ => Err(WireError::Short),
        }
    }

    #[tactic(auto, unfolding(crate::specs::PolicyForm::callbacks))]
    fn write(&self, out: &mut Vec<u8>) -> Result<(), WireError> {
        write_u32(out, *self as u32)
    }
}

impl Wire for CloseLocks {
    ghost form = { forms.close_locks };

    #[tactic(auto, unfolding(crate::specs::PolicyForm::close_locks, xdr::specs::Reading::value_at))]
    fn read(alloc: Global, bytes: &[u8]) -> Result<(CloseLocks, &[u8]), WireError>
        ensures { Answers (λ x. (x.0, x.1.now)) result (forms.close_locks.at bytes.now) }
    {
        let (number, rest) = read_u32(bytes)?;
        match number {
            0 => Ok((CloseLocks::Free, rest)),
            1 => Ok((CloseLocks::Refuse, rest)),
            _ => Err(WireError::Short),
        }
    }

    #[tactic(auto, unfolding(crate::specs::PolicyForm::close_locks))]
    fn write(&self, out: &mut Vec<u8>) -> Result<(), WireError> {
        write_u32(out, *self as u32)
    }
}
