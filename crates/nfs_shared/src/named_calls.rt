//! How a client is called back, as one call by a well-known name, over the calls that the program makes in its place.
ghost use Rattle.std.specs.Prelude.{◌≡◌, IfOk};
ghost use Rattle.nfs_core.specs.Callbacks.{callback_of};
ghost use Rattle.nfs_shared.specs.Held.{HasLooked, HeldView, SenderMayFind};

use crate::naming::Naming;
use crate::sender::Sender;
use crate::shared::Shared;
use nfs_xdr::Callback;
use std::alloc::AllocError;
use std::marker::Model;
use std::sync::Wait;

impl<N: Naming> Shared<N> {
    /// How a live client is called back, as a copy, if there is such a client. It fails only where memory is refused
    /// for the copy.
    pub fn callback<R: Wait>(
        &self,
        rt: &R,
        sender: &mut Sender<N>,
        client: u32,
    ) -> Result<Option<Callback>, AllocError>
        ensures found { IfOk result (λ found. (held : HeldView)
            × SenderMayFind N.start sender.old held × (found ≡ callback_of client held.server)) }
        ensures sender { HasLooked N.start sender.old sender.new }
    {
        let hold = self.hold_for(rt, sender);
        match hold.guard.core().callback(client) {
            Some(callback) => Ok(Some(callback.clone()?)),
            None => Ok(None),
        }
    }
}
