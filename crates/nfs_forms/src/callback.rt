//! Where and how a client wants callbacks, as SETCLIENTID says.

ghost use Rattle.nfs_forms.specs.Callback as forms;

use std::alloc::Global;
use xdr::{Bytes, Measure, Wire, WireError, write_three, write_two};

/// Where a client receives callbacks: a transport and an address on it (clientaddr4; RFC 7530, section 2.2).
#[derive(Clone, PartialEq, Drop)]
pub struct Address {
    /// The transport's name, r_netid, such as `tcp`.
    pub netid: Bytes,
    /// The universal address, r_addr, such as `127.0.0.1.8.1`.
    pub addr: Bytes,
}

/// How the server calls a client back (cb_client4, and the callback_ident that follows it).
#[derive(Clone, PartialEq, Drop)]
pub struct Callback {
    /// The RPC program of the callbacks.
    pub program: u32,
    pub address: Address,
    /// The callback_ident, which the server sends in each callback.
    pub ident: u32,
}

impl Wire for Address {
    ghost form = { forms.address };

    #[tactic(auto, unfolding(crate::specs::Callback::address))]
    fn read(alloc: Global, bytes: &[u8]) -> Result<(Address, &[u8]), WireError> {
        let (netid, rest) = Bytes::read(alloc, bytes)?;
        let (addr, rest) = Bytes::read(alloc, rest)?;
        Ok((Address { netid, addr }, rest))
    }

    #[tactic(auto, unfolding(crate::specs::Callback::address))]
    fn write(&self, out: &mut Vec<u8>) -> Result<(), WireError> {
        write_two(out, &self.netid, &self.addr)
    }
}

impl Wire for Callback {
    ghost form = { forms.callback };

    #[tactic(auto, unfolding(crate::specs::Callback::callback))]
    fn read(alloc: Global, bytes: &[u8]) -> Result<(Callback, &[u8]), WireError> {
        let (program, rest) = u32::read(alloc, bytes)?;
        let (address, rest) = Address::read(alloc, rest)?;
        let (ident, rest) = u32::read(alloc, rest)?;
        let callback = Callback {
            program,
            address,
            ident,
        };
        Ok((callback, rest))
    }

    #[tactic(auto, unfolding(crate::specs::Callback::callback))]
    fn write(&self, out: &mut Vec<u8>) -> Result<(), WireError> {
        write_three(out, &self.program, &self.address, &self.ident)
    }
}

impl Measure for Address {
    #[tactic(auto, unfolding(crate::specs::Callback::address))]
    fn written_len(&self) -> usize {
        self.netid.written_len() + self.addr.written_len()
    }
}
