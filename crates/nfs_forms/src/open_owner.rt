//! Open owners, as OPEN names them.

ghost use Rattle.nfs_forms.specs.OpenOwner as forms;

use crate::ClientId;
use std::alloc::Global;
use xdr::{Measure, Opaque, Wire, WireError, write_two};

/// The greatest length of an owner's name in bytes (NFS4_OPAQUE_LIMIT).
pub const OWNER_NAME_LIMIT: u32 = 1024;

/// Who opens files at a client, such as one of its processes (open_owner4; RFC 7530, section 9.1.5).
#[derive(Clone, PartialEq, Drop)]
pub struct OpenOwner {
    pub client: ClientId,
    /// The name that the client gave it.
    pub name: Opaque<OWNER_NAME_LIMIT>,
}

impl Wire for OpenOwner {
    ghost form = { forms.open_owner };

    #[tactic(auto, unfolding(crate::specs::OpenOwner::open_owner))]
    fn read(alloc: Global, bytes: &[u8]) -> Result<(OpenOwner, &[u8]), WireError> {
        let (client, rest) = ClientId::read(alloc, bytes)?;
        let (name, rest) = Opaque::<OWNER_NAME_LIMIT>::read(alloc, rest)?;
        Ok((OpenOwner { client, name }, rest))
    }

    #[tactic(auto, unfolding(crate::specs::OpenOwner::open_owner))]
    fn write(&self, out: &mut Vec<u8>) -> Result<(), WireError> {
        write_two(out, &self.client, &self.name)
    }
}
