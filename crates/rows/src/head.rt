//! What is read before the first order: the epoch, the lease, the bounds of the run, and the files.

ghost use Rattle.std.specs.Prelude.{◌≤◌};
ghost use Rattle.nfs_state.specs.declared.journal.TheConstants.{LEASE_MAX, LEASE_MIN};

use crate::failure::Failure;
use crate::input::Input;
use crate::way::Way;
use nfs_core::{LEASE_MAX, LEASE_MIN};
use std::io::Read;

/// What the input begins with.
#[derive(Drop)]
pub(crate) struct Head {
    pub(crate) way: Way,
    /// The lease in seconds.
    pub(crate) lease: u32,
    pub(crate) epoch: u32,
    /// How many connections there may be in all that are served together.
    pub(crate) seats: u32,
    /// The TOML document of the files.
    pub(crate) document: String,
    ghost limits: { (LEASE_MIN ≤ lease) × (lease ≤ LEASE_MAX) },
}

impl Head {
    pub(crate) fn read<R: Read + Drop>(input: &mut Input<R>) -> Result<Head, Failure> {
        let way = match input.word()? {
            0 => Way::Alone,
            1 => Way::Together,
            _ => return Err(Failure::Input),
        };
        let lease = input.word()?;
        if lease < LEASE_MIN || lease > LEASE_MAX {
            return Err(Failure::Input);
        }
        let epoch = input.word()?;
        let seats = input.word()?;
        let Ok(document) = String::from_utf8(input.part()?) else {
            return Err(Failure::Input);
        };
        Ok(Head {
            way,
            lease,
            epoch,
            seats,
            document,
        })
    }
}
