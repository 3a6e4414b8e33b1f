//! Clientids, which tell the clients of this run of the server from those of earlier runs.

ghost use Rattle.std.specs.Prelude.{◌≡◌};
ghost use Rattle.nfs_forms.specs.ClientId as forms;
ghost use Rattle.nfs_forms.specs.ClientId.{number_in};
ghost use Rattle.xdr.specs.Reading.{Answers};

use std::alloc::Global;
use xdr::{Measure, Wire, WireError, write_two};

/// A clientid (clientid4; RFC 7530, section 9.1.1), written as the number epoch x 2^32 + number.
#[derive(Clone, Copy, Debug, PartialEq, Eq)]
pub struct ClientId {
    /// The number of the server's run.
    pub epoch: u32,
    /// The client's number in that run, from 1.
    pub number: u32,
}

impl ClientId {
    /// The client's number, if the clientid is one of the run with this number.
    pub fn number_in(self, epoch: u32) -> Option<u32>
        ensures { result ≡ number_in epoch self }
    {
        (self.epoch == epoch).then_some(self.number)
    }
}

impl Wire for ClientId {
    ghost form = { forms.client_id };

    #[tactic(auto, unfolding(crate::specs::ClientId::client_id))]
    fn read(alloc: Global, bytes: &[u8]) -> Result<(ClientId, &[u8]), WireError>
        ensures { Answers (λ x. (x.0, x.1.now)) result (forms.client_id.at bytes.now) }
    {
        let (epoch, rest) = u32::read(alloc, bytes)?;
        let (number, rest) = u32::read(alloc, rest)?;
        Ok((ClientId { epoch, number }, rest))
    }

    #[tactic(auto, unfolding(crate::specs::ClientId::client_id))]
    fn write(&self, out: &mut Vec<u8>) -> Result<(), WireError> {
        write_two(out, &self.epoch, &self.number)
    }
}

impl Measure for ClientId {
    #[tactic(auto, unfolding(crate::specs::ClientId::client_id))]
    fn written_len(&self) -> usize {
        self.epoch.written_len() + self.number.written_len()
    }
}
