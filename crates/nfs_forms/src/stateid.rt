//! Stateids, by which clients name opens, lock states and delegations.

ghost use Rattle.std.specs.Prelude.{◌≡◌};
ghost use Rattle.nfs_forms.specs.Stateid as forms;
ghost use Rattle.nfs_forms.specs.Stateid.{is_all, is_special};
ghost use Rattle.xdr.specs.Reading.{Answers};

use crate::ClientId;
use std::alloc::Global;
use xdr::{Measure, Wire, WireError, write_three};

/// The server's name for a state, such as an open (stateid4; RFC 7530, section 9.1.4). The 12 bytes after `seqid`,
/// which the RFC calls `other`, are the epoch, the client's number and the state's number.
#[derive(Clone, Copy, PartialEq, Eq)]
pub struct Stateid {
    /// How often the state has changed, from 1.
    pub seqid: u32,
    /// The client whose state it is.
    pub client: ClientId,
    /// The state's number in the server's run, from 1.
    pub number: u32,
}

impl Stateid {
    /// The stateid after the state's next change.
    pub fn next(self) -> Stateid
        ensures { result ≡ forms.next_stateid self }
    {
        let seqid = if self.seqid == u32::MAX {
            1
        } else {
            self.seqid + 1
        };
        Stateid { seqid, ..self }
    }

    /// Whether all bits of the stateid are zero, or all are one (RFC 7530, section 9.1.4.3).
    pub fn is_special(self) -> bool
        ensures { result ≡ is_special self }
    {
        self.is_all(0) || self.is_all(u32::MAX)
    }

    // Whether each of the four words of the stateid is this number.
    fn is_all(self, word: u32) -> bool
        ensures { result ≡ is_all word self }
    {
        let Stateid {
            seqid,
            client,
            number,
        } = self;
        seqid == word && client.epoch == word && client.number == word && number == word
    }
}

impl Wire for Stateid {
    ghost form = { forms.stateid };

    #[tactic(auto, unfolding(crate::specs::Stateid::stateid))]
    fn read(alloc: Global, bytes: &[u8]) -> Result<(Stateid, &[u8]), WireError>
        ensures { Answers (λ x. (x.0, x.1.now)) result (forms.stateid.at bytes.now) }
    {
        let (seqid, rest) = u32::read(alloc, bytes)?;
        let (client, rest) = ClientId::read(alloc, rest)?;
        let (number, rest) = u32::read(alloc, rest)?;
        Ok((
            Stateid {
                seqid,
                client,
                number,
            },
            rest,
        ))
    }

    #[tactic(auto, unfolding(crate::specs::Stateid::stateid))]
    fn write(&self, out: &mut Vec<u8>) -> Result<(), WireError> {
        write_three(out, &self.seqid, &self.client, &self.number)
    }
}

impl Measure for Stateid {
    #[tactic(auto, unfolding(crate::specs::Stateid::stateid))]
    fn written_len(&self) -> usize {
        self.seqid.written_len() + self.client.written_len() + self.number.written_len()
    }
}
