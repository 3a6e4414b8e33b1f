//! A call that only contracts can see, so that a receipt names an entry without a copy of it.

ghost use Rattle.std.specs.Prelude.{◌≡◌};
ghost use Rattle.nfs_state.specs.declared.entry.Call.{Call};
ghost use base.Fml.{ftrue};

use crate::Call;
use std::marker::Model;

/// A call that clauses read. It takes no bytes and owns nothing, so a clause has to say which call it is.
pub struct SeenCall {
    pub ghost call: { Call },
}

impl Model for SeenCall {
    ghost also_owns = { λ _. ftrue };
}

impl SeenCall {
    /// The call that the reference shows.
    pub fn of(call: &Call) -> SeenCall
        ensures { result.call ≡ call.now }
    {
        let _ = call;
        SeenCall {}
    }
}

impl Drop for SeenCall {
    fn drop(self) {
        let Self {} = self;
    }
}

unsafe impl Send for SeenCall {}

unsafe impl Sync for SeenCall {}
