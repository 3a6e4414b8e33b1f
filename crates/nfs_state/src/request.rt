//! Requests, as rules decide them and the journal records them.

ghost use Rattle.std.specs.Prelude.{◌≡◌, IfOk};
ghost use Rattle.nfs_state.specs.Entries.{is_filehandle};

use crate::Moment;
use nfs_tree::Profile;
use nfs_xdr::{Op, Principal};
use std::alloc::AllocError;

/// A request for an operation on the state: who sent it, when, and with which current filehandle.
#[derive(Drop)]
pub struct Request {
    pub moment: Moment,
    pub principal: Principal,
    pub op: Op,
    /// The node of the current filehandle, if there is one.
    pub filehandle: Option<u32>,
}

impl Request {
    ghost use Rattle.nfs_state.specs.Entries.{can_be_asked, request_of};

    /// A request for a copy of the operation.
    pub fn of_copy(
        moment: Moment,
        principal: Principal,
        op: &Op,
        filehandle: Option<u32>,
    ) -> Result<Request, AllocError>
        ensures { IfOk result (λ r. r ≡ request_of moment principal op.now filehandle) }
    {
        Ok(Request {
            moment,
            principal,
            op: op.clone()?,
            filehandle,
        })
    }

    /// Whether the request can be asked under this profile, where the tree has so many nodes: its operation has an
    /// entry in the journal, and its filehandle, if there is one, is that of a node.
    pub fn can_be_asked(&self, profile: Profile, nodes: u32) -> bool
        ensures { result ≡ can_be_asked profile nodes self.now }
    {
        profile.has_entry(&self.op) && is_filehandle(nodes, self.filehandle)
    }
}

// Whether the node of a filehandle, if there is one, is one of so many.
fn is_filehandle(nodes: u32, filehandle: Option<u32>) -> bool
    ensures { result ≡ is_filehandle nodes filehandle }
{
    match filehandle {
        None => true,
        Some(node) => node < nodes,
    }
}
