//! The beginning of a journal's file: the letters of its edition, and what the server was started with.

ghost use Rattle.std.specs.Prelude.{◌≡◌};
ghost use Rattle.nfs_journal.specs.File as forms;
ghost use Rattle.nfs_journal.specs.File.{of_profile, start_case, start_of};
ghost use Rattle.nfs_journal.specs.Journals.{file_of};
ghost use Rattle.xdr.specs.Reading.{Answers, Gives};
ghost use Rattle.xdr.specs.Switch.{case_at};

use nfs_state::Journal;
use nfs_tree::{Callbacks, CloseLocks, Delegations, Policy, Profile};
use std::alloc::Global;
use xdr::{
    Wire, WireError, read_constant, read_u32, write_five, write_four, write_three, write_u32,
};

/// The first four letters of each file, `NFSJ`.
const FIRST_LETTERS: u32 = 0x4e46_534a;

/// The editions of the form of a file, by the four letters that follow. They tell the profile.
#[derive(Clone, Copy, PartialEq, Eq)]
pub enum Edition {
    /// `RC03`. The profile is "clients".
    Clients = 0x5243_3033,
    /// `RN02`. The profile is "plain", what CLOSE does under locks isn't told, and owners aren't forgotten.
    Second = 0x524e_3032,
    /// `RN03`. The profile is "plain".
    Third = 0x524e_3033,
}

/// What a server began with, beside its tree.
#[derive(Clone, Copy)]
pub struct Start {
    /// The number of the server's run.
    pub epoch: u32,
    /// The lease in seconds.
    pub lease: u32,
    pub policy: Policy,
}

/// What a file of the second edition has of what the server began with.
#[derive(Clone, Copy)]
pub struct SecondStart {
    pub epoch: u32,
    pub lease: u32,
    pub delegations: Delegations,
    pub callbacks: Callbacks,
}

/// What a file of the third edition, of either profile, has of what the server began with.
#[derive(Clone, Copy)]
pub struct ThirdStart {
    pub epoch: u32,
    pub lease: u32,
    pub delegations: Delegations,
    pub callbacks: Callbacks,
    pub close_locks: CloseLocks,
}

/// What a file has of what a server began with, beside its tree, by its edition.
#[derive(Clone, Copy)]
pub enum Opening {
    Clients(ThirdStart),
    Second(SecondStart),
    Third(ThirdStart),
}

impl Opening {
    /// What the server of this journal began with, as a file of the third edition has it.
    pub fn of(journal: &Journal) -> Opening
        ensures { result ≡ (file_of journal.now.history).opening }
    {
        let policy = journal.policy();
        let start = ThirdStart {
            epoch: journal.epoch(),
            lease: journal.lease(),
            delegations: policy.delegations,
            callbacks: policy.callbacks,
            close_locks: policy.close_locks,
        };
        match policy.profile {
            Profile::Plain => Opening::Third(start),
            Profile::Clients => Opening::Clients(start),
        }
    }

    /// What the server began with. Before the third edition CLOSE freed what was locked.
    pub fn start(self) -> Start
        ensures { result ≡ start_of self }
    {
        match self {
            Opening::Clients(start) => start.of_profile(Profile::Clients),
            Opening::Second(start) => Start {
                epoch: start.epoch,
                lease: start.lease,
                policy: Policy {
                    delegations: start.delegations,
                    callbacks: start.callbacks,
                    close_locks: CloseLocks::Free,
                    profile: Profile::Plain,
                },
            },
            Opening::Third(start) => start.of_profile(Profile::Plain),
        }
    }
}

impl ThirdStart {
    // What the server began with, whose profile the letters tell.
    fn of_profile(self, profile: Profile) -> Start
        ensures { result ≡ of_profile profile self }
    {
        Start {
            epoch: self.epoch,
            lease: self.lease,
            policy: Policy {
                delegations: self.delegations,
                callbacks: self.callbacks,
                close_locks: self.close_locks,
                profile,
            },
        }
    }
}

impl Wire for Edition {
    ghost form = { forms.edition };

    #[tactic(auto, unfolding(crate::specs::File::edition, xdr::specs::Reading::value_at))]
    fn read(alloc: Global, bytes: &[u8]) -> Result<(Edition, &[u8]), WireError>
        ensures { Answers (λ x. (x.0, x.1.now)) result (forms.edition.at bytes.now) }
    {
        let (number, rest) = read_u32(bytes)?;
        match number {
            0x5243_3033 => Ok((Edition::Clients, rest)),
            0x524e_3032 => Ok((Edition::Second, rest)),
            0x524e_3033 => Ok((Edition::Third, rest)),
            _ => Err(WireError::Short),
        }
    }

    #[tactic(auto, unfolding(crate::specs::File::edition))]
    fn write(&self, out: &mut Vec<u8>) -> Result<(), WireError> {
        write_u32(out, *self as u32)
    }
}

impl Wire for ThirdStart {
    ghost form = { forms.third };

    #[tactic(auto, unfolding(crate::specs::File::third))]
    fn read(alloc: Global, bytes: &[u8]) -> Result<(ThirdStart, &[u8]), WireError> {
        let (epoch, rest) = u32::read(alloc, bytes)?;
        let (lease, rest) = u32::read(alloc, rest)?;
        let (delegations, rest) = Delegations::read(alloc, rest)?;
        let (callbacks, rest) = Callbacks::read(alloc, rest)?;
        let (close_locks, rest) = CloseLocks::read(alloc, rest)?;
        let start = ThirdStart {
            epoch,
            lease,
            delegations,
            callbacks,
            close_locks,
        };
        Ok((start, rest))
    }

    #[tactic(auto, unfolding(crate::specs::File::third))]
    fn write(&self, out: &mut Vec<u8>) -> Result<(), WireError> {
        write_five(
            out,
            &self.epoch,
            &self.lease,
            &self.delegations,
            &self.callbacks,
            &self.close_locks,
        )
    }
}

impl Wire for SecondStart {
    ghost form = { forms.second };

    #[tactic(auto, unfolding(crate::specs::File::second))]
    fn read(alloc: Global, bytes: &[u8]) -> Result<(SecondStart, &[u8]), WireError> {
        let (epoch, rest) = u32::read(alloc, bytes)?;
        let (lease, rest) = u32::read(alloc, rest)?;
        let (delegations, rest) = Delegations::read(alloc, rest)?;
        let (callbacks, rest) = Callbacks::read(alloc, rest)?;
        let start = SecondStart {
            epoch,
            lease,
            delegations,
            callbacks,
        };
        Ok((start, rest))
    }

    #[tactic(auto, unfolding(crate::specs::File::second))]
    fn write(&self, out: &mut Vec<u8>) -> Result<(), WireError> {
        write_four(
            out,
            &self.epoch,
            &self.lease,
            &self.delegations,
            &self.callbacks,
        )
    }
}

impl Wire for Opening {
    ghost form = { forms.opening };

    #[tactic(auto, unfolding(crate::specs::File::opening))]
    fn read(alloc: Global, bytes: &[u8]) -> Result<(Opening, &[u8]), WireError> {
        let (_, rest) = read_constant(bytes, FIRST_LETTERS)?;
        let (edition, rest) = Edition::read(alloc, rest)?;
        read_start(alloc, edition, rest)
    }

    #[tactic(auto, unfolding(crate::specs::File::opening))]
    fn write(&self, out: &mut Vec<u8>) -> Result<(), WireError> {
        match self {
            Opening::Clients(start) => write_three(out, &FIRST_LETTERS, &Edition::Clients, start),
            Opening::Second(start) => write_three(out, &FIRST_LETTERS, &Edition::Second, start),
            Opening::Third(start) => write_three(out, &FIRST_LETTERS, &Edition::Third, start),
        }
    }
}

// Reads what follows the letters of this edition.
fn read_start(alloc: Global, edition: Edition, bytes: &[u8]) -> Result<(Opening, &[u8]), WireError>
    ensures { Gives (λ x. (x.0, x.1.now)) result (case_at (start_case edition) bytes.now) }
{
    match edition {
        Edition::Clients => match ThirdStart::read(alloc, bytes) {
            Ok((start, rest)) => Ok((Opening::Clients(start), rest)),
            Err(error) => Err(error),
        },
        Edition::Second => match SecondStart::read(alloc, bytes) {
            Ok((start, rest)) => Ok((Opening::Second(start), rest)),
            Err(error) => Err(error),
        },
        Edition::Third => match ThirdStart::read(alloc, bytes) {
            Ok((start, rest)) => Ok((Opening::Third(start), rest)),
            Err(error) => Err(error),
        },
    }
}
