//! What a SETATTR asks for, after its refusals were ruled out.

use nfs_tree::Settable;

/// Which attributes are to be set, and to which size, if to one.
#[derive(Clone, Copy)]
pub struct Wish {
    pub asked: Settable,
    pub size: Option<u64>,
}

impl Wish {
    ghost use Rattle.std.specs.Prelude.{◌≡◌, ◌||◌};

    // Whether anything is asked for.
    pub(crate) fn asks(self) -> bool
        ensures { result ≡ (self.asked.size || self.asked.time) }
    {
        self.asked.size || self.asked.time
    }
}
