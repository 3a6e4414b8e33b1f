//! A state for the tests: what was given to it is asked, and what it is told is kept.
use nfs_callbacks::{CallbackSource, Fault, MarkError, Probe};
use nfs_rpc::Recall;
use nfs_xdr::{Address, Callback, ClientId, FileHandle, Principal, Stateid};
use std::alloc::{AllocError, Global};
use std::collections::VecDeque;
use xdr::Bytes;

/// A state with the recalls that it was given, and at most one client of whose path nothing is known.
#[derive(Drop)]
pub(crate) struct Toy {
    pub(crate) recalls: VecDeque<Recall>,
    pub(crate) unknown: Option<Probe>,
    /// A client that isn't live any more, though its delegations are still said to be its own.
    pub(crate) dead: Option<u32>,
    /// The client of which it was asked last whether it is live.
    pub(crate) asked_live: Option<u32>,
    /// Whether the delegations are still their clients'.
    pub(crate) is_held: bool,
    /// What marks fail with.
    pub(crate) refusal: Option<MarkError>,
    /// The marks that were made: the client, and whether its path is up.
    pub(crate) marks: Vec<(u32, bool)>,
    /// Why the call before the last mark didn't reach its client.
    pub(crate) fault: Option<Fault>,
    /// The client of which it took notice last that it hasn't replied for long.
    pub(crate) noticed: Option<u32>,
    /// The first and the last of the delegations that it was asked about last, whose numbers follow each other.
    pub(crate) asked: Option<(u32, u32)>,
}

impl Toy {
    pub(crate) fn new(alloc: Global) -> Result<Toy, AllocError> {
        Ok(Toy {
            recalls: VecDeque::new(alloc),
            unknown: None,
            dead: None,
            asked_live: None,
            is_held: true,
            refusal: None,
            marks: Vec::with_capacity(alloc, 16)?,
            fault: None,
            noticed: None,
            asked: None,
        })
    }

    /// A recall of a client's delegation, which is told at this universal address.
    pub(crate) fn recall(
        &mut self,
        alloc: Global,
        client: u32,
        number: u32,
        addr: &str,
    ) -> Result<(), AllocError> {
        let client = ClientId {
            epoch: 1,
            number: client,
        };
        self.recalls.push_back(Recall {
            callback: callback_at(alloc, addr)?,
            principal: Principal::AuthNone,
            stateid: Stateid {
                seqid: 1,
                client,
                number,
            },
            handle: FileHandle::copy_of(alloc, b"nfh1\0\0\0\x01")?,
        })?;
        Ok(())
    }
}

pub(crate) fn callback_at(alloc: Global, addr: &str) -> Result<Callback, AllocError> {
    let address = Address {
        netid: Bytes::copy_of(alloc, b"tcp")?,
        addr: Bytes::copy_of(alloc, addr.as_bytes())?,
    };
    Ok(Callback {
        program: 0x4000_0000,
        address,
        ident: 1,
    })
}

impl CallbackSource for Toy {
    ghost use Rattle.std.specs.Prelude.{⊤};

    ghost answers = { λ old answered new. ⊤ };

    fn take(&mut self) -> Option<Recall> {
        self.recalls.pop_front()
    }

    fn probe(&mut self, after: u32) -> Result<Option<Probe>, AllocError> {
        match &self.unknown {
            Some(probe) if probe.client > after => Ok(Some(Probe {
                client: probe.client,
                callback: probe.callback.clone()?,
            })),
            _ => Ok(None),
        }
    }

    fn is_live(&mut self, client: u32) -> bool {
        self.asked_live = Some(client);
        self.dead != Some(client)
    }

    fn has_callback(&mut self, _client: u32, _callback: &Callback) -> bool {
        true
    }

    fn has_delegation(&mut self, recall: &Recall) -> bool {
        let number = recall.stateid.number;
        self.asked = match self.asked {
            Some((first, last)) if last.checked_add(1) == Some(number) => Some((first, number)),
            _ => Some((number, number)),
        };
        self.is_held
    }

    fn mark(
        &mut self,
        client: u32,
        _callback: &Callback,
        reached: Result<(), Fault>,
    ) -> Result<(), MarkError> {
        if let Some(refusal) = self.refusal {
            return Err(refusal);
        }
        self.unknown = None;
        self.fault = reached.err();
        self.marks
            .push((client, reached.is_ok()))
            .map_err(|_| MarkError::Later)
    }

    fn notice(&mut self, client: u32, _callback: &Callback) {
        self.noticed = Some(client);
    }
}
