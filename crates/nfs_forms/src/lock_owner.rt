//! Lock owners, as LOCK, LOCKT and RELEASE_LOCKOWNER name them.

ghost use Rattle.nfs_forms.specs.LockOwner as forms;

use crate::{ClientId, OWNER_NAME_LIMIT};
use std::alloc::Global;
use xdr::{Measure, Opaque, Wire, WireError, write_two};

/// Who locks bytes of files at a client, such as one of its processes (lock_owner4; RFC 7530, section 9.1.5). A lock
/// owner may have the name of an open owner: the two names are unrelated.
#[derive(Clone, PartialEq, Drop)]
pub struct LockOwner {
    pub client: ClientId,
    /// The name that the client gave it.
    pub name: Opaque<OWNER_NAME_LIMIT>,
}

impl Wire for LockOwner {
    ghost form = { forms.lock_owner };

    #[tactic(auto, unfolding(crate::specs::LockOwner::lock_owner))]
    fn read(alloc: Global, bytes: &[u8]) -> Result<(LockOwner, &[u8]), WireError> {
        let (client, rest) = ClientId::read(alloc, bytes)?;
        let (name, rest) = Opaque::<OWNER_NAME_LIMIT>::read(alloc, rest)?;
        Ok((LockOwner { client, name }, rest))
    }

    #[tactic(auto, unfolding(crate::specs::LockOwner::lock_owner))]
    fn write(&self, out: &mut Vec<u8>) -> Result<(), WireError> {
        write_two(out, &self.client, &self.name)
    }
}

impl Measure for LockOwner {
    #[tactic(auto, unfolding(crate::specs::LockOwner::lock_owner))]
    fn written_len(&self) -> usize {
        self.client.written_len() + self.name.written_len()
    }
}
