//! Lends a client's record without a copy of its id.

ghost use Rattle.std.specs.Prelude.{◌≤◌, length};
ghost use Rattle.nfs_operations.specs.declared.setclientid.TheConstants.{ID_LIMIT};

use crate::ClientState;
use nfs_operations::setclientid::ID_LIMIT;

/// A client's record, lent: its id, which is at most as long as that of a record, and what else it has.
#[derive(Clone, Copy)]
pub struct ClientRef<'a> {
    pub id: &'a [u8],
    pub state: &'a ClientState,
    pub ghost short: { length id.now ≤ ID_LIMIT },
}
