//! Sets of reading and writing, as share_access and share_deny have them.

ghost use Rattle.std.specs.Prelude.{◌≡◌};

/// Reading and writing: neither, one or both. An OPEN names so what it may do itself (share_access), and what it denies
/// to others (share_deny; RFC 7530, section 9.9).
#[derive(Clone, Copy, PartialEq, Eq, Default)]
pub struct Modes {
    pub read: bool,
    pub write: bool,
}

impl Modes {
    ghost use Rattle.nfs_share.specs.Modes.{contains, meets, modes_of_number, union};

    /// Neither reading nor writing (OPEN4_SHARE_DENY_NONE).
    pub const NONE: Modes = Modes {
        read: false,
        write: false,
    };

    /// Reading (OPEN4_SHARE_ACCESS_READ, OPEN4_SHARE_DENY_READ).
    pub const READ: Modes = Modes {
        read: true,
        write: false,
    };

    /// Writing (OPEN4_SHARE_ACCESS_WRITE, OPEN4_SHARE_DENY_WRITE).
    pub const WRITE: Modes = Modes {
        read: false,
        write: true,
    };

    /// Reading and writing (OPEN4_SHARE_ACCESS_BOTH, OPEN4_SHARE_DENY_BOTH).
    pub const BOTH: Modes = Modes {
        read: true,
        write: true,
    };

    /// The modes that this number stands for in an OPEN, if it stands for any.
    pub fn from_number(number: u32) -> Option<Modes>
        ensures { result ≡ modes_of_number number }
    {
        match number {
            0 => Some(Modes::NONE),
            1 => Some(Modes::READ),
            2 => Some(Modes::WRITE),
            3 => Some(Modes::BOTH),
            _ => None,
        }
    }

    /// Whether a mode is in both.
    pub fn meets(self, other: Modes) -> bool
        ensures { result ≡ meets self other }
    {
        (self.read && other.read) || (self.write && other.write)
    }

    /// Whether each mode of the other is in this.
    pub fn contains(self, other: Modes) -> bool
        ensures { result ≡ contains self other }
    {
        (self.read || !other.read) && (self.write || !other.write)
    }

    /// The modes that are in one of the two.
    pub fn union(self, other: Modes) -> Modes
        ensures { result ≡ union self other }
    {
        Modes {
            read: self.read || other.read,
            write: self.write || other.write,
        }
    }
}
