//! The two modes of a byte-range lock, and which of them conflict.

ghost use Rattle.std.specs.Prelude.{◌≡◌};
ghost use Rattle.nfs_ranges.specs.Covering.{suffices};
ghost use Rattle.nfs_ranges.specs.Modes.{conflicts, is_same};

/// What a lock is for: to read bytes beside other readers, or to write them alone (RFC 7530, section 16.10). Locks are
/// advisory: they refuse other locks, and no READ or WRITE.
#[derive(Clone, Copy, PartialEq, Eq)]
pub enum Mode {
    /// Others may lock the bytes for reading.
    Read,
    /// Others may not lock them.
    Write,
}

impl Mode {
    /// Whether a lock for this is refused by the mode in which another owner holds a byte.
    pub fn conflicts_with(self, held: Option<Mode>) -> bool
        ensures { result ≡ conflicts self held }
    {
        match held {
            None => false,
            Some(Mode::Write) => true,
            Some(Mode::Read) => match self {
                Mode::Read => false,
                Mode::Write => true,
            },
        }
    }

    // Whether a byte that is held so is held for this, or for writing.
    pub(crate) fn is_met_by(self, held: Option<Mode>) -> bool
        ensures { result ≡ suffices self held }
    {
        match held {
            None => false,
            Some(Mode::Write) => true,
            Some(Mode::Read) => match self {
                Mode::Read => true,
                Mode::Write => false,
            },
        }
    }
}

/// Whether two bytes with these modes are held alike.
pub(crate) fn are_alike(a: Option<Mode>, b: Option<Mode>) -> bool
    ensures { result ≡ is_same a b }
{
    match (a, b) {
        (None, None) => true,
        (Some(Mode::Read), Some(Mode::Read)) => true,
        (Some(Mode::Write), Some(Mode::Write)) => true,
        _ => false,
    }
}
