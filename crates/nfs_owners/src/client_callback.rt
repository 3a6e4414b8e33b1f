//! Callback addresses as records store them, with a limit, so that a record's size is bounded.

ghost use Rattle.std.specs.Prelude.{◌≡◌, ◌↔◌, false, true, IfOk, IsErrOf};
ghost use Rattle.nfs_owners.specs.Addresses.{is_within_limit};

use crate::OwnersError;
use nfs_xdr::{Address, Callback};
use std::alloc::AllocError;
use std::marker::Model;

/// The greatest length of r_netid, and of r_addr, in a client's record, in bytes.
pub const ADDRESS_LIMIT: usize = 128;

/// How a client is called back, as its record stores it: both parts of the address are within the limit.
#[derive(Drop)]
pub struct ClientCallback {
    callback: Callback,
}

impl Model for ClientCallback {
    ghost use Rattle.std.specs.Prelude.{◌≡◌, true};
    ghost use Rattle.nfs_owners.specs.Addresses.{is_within_limit};
    ghost use Rattle.nfs_forms.specs.declared.callback.Callback.{Callback};

    ghost Value = { Callback };

    ghost view = { λ c. c.callback };

    ghost invariant = { λ c. is_within_limit c.callback.address ≡ true };
}

impl Clone for ClientCallback {
    ghost is_clone = { λ x y. y ≡ x };

    fn clone(&self) -> Result<ClientCallback, AllocError> {
        Ok(ClientCallback {
            callback: self.callback.clone()?,
        })
    }
}

impl ClientCallback {
    /// A copy of the callback. Full if a part of the address is too long.
    pub fn copy_of(callback: &Callback) -> Result<ClientCallback, OwnersError>
        ensures ok { IfOk result (λ c. c ≡ callback.now) }
        ensures full { IsErrOf result OwnersError.Full
            ↔ is_within_limit callback.now.address ≡ false }
    {
        if !is_within_limit(&callback.address) {
            return Err(OwnersError::Full);
        }
        Ok(ClientCallback {
            callback: callback.clone()?,
        })
    }

    /// The callback, as the client asked for it.
    pub fn as_callback(&self) -> &Callback
        ensures value { result.now ≡ self.now }
        ensures within { is_within_limit result.now.address ≡ true }
    {
        &self.callback
    }

    /// The transport and the address on it.
    pub fn address(&self) -> &Address
        ensures value { result.now ≡ self.now.address }
        ensures within { is_within_limit result.now ≡ true }
    {
        &self.callback.address
    }
}

// Whether both parts of the address are within the limit.
fn is_within_limit(address: &Address) -> bool
    ensures { result ≡ is_within_limit address.now }
{
    address.netid.as_slice().len() <= ADDRESS_LIMIT
        && address.addr.as_slice().len() <= ADDRESS_LIMIT
}
