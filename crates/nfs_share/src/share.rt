//! Share reservations, and which of them conflict.

ghost use Rattle.std.specs.Prelude.{◌≡◌};

use crate::Modes;

/// The share reservation of an OPEN: what it may do itself, and what it denies to others (RFC 7530, section 9.9).
#[derive(Clone, Copy, PartialEq, Eq, Default)]
pub struct Share {
    pub access: Modes,
    pub deny: Modes,
}

impl Share {
    ghost use Rattle.nfs_share.specs.Share.{conflicts_with, contains, share_of_numbers, union};

    /// The share that has nothing and denies nothing. No OPEN may ask for it.
    pub const NONE: Share = Share {
        access: Modes::NONE,
        deny: Modes::NONE,
    };

    /// The share that these numbers for share_access and share_deny stand for, if they stand for one: the access has at
    /// least one mode (RFC 7530, section 16.16.5).
    pub fn from_numbers(access: u32, deny: u32) -> Option<Share>
        ensures { result ≡ share_of_numbers access deny }
    {
        if access == 0 {
            return None;
        }
        let access = Modes::from_number(access)?;
        let deny = Modes::from_number(deny)?;
        Some(Share { access, deny })
    }

    /// Whether one of the two may do what the other denies.
    pub fn conflicts_with(self, other: Share) -> bool
        ensures { result ≡ conflicts_with self other }
    {
        self.access.meets(other.deny) || self.deny.meets(other.access)
    }

    /// Whether the other has no access that this hasn't, and denies nothing that this doesn't deny.
    pub fn contains(self, other: Share) -> bool
        ensures { result ≡ contains self other }
    {
        self.access.contains(other.access) && self.deny.contains(other.deny)
    }

    /// The access of both, with the denials of both.
    pub fn union(self, other: Share) -> Share
        ensures { result ≡ union self other }
    {
        Share {
            access: self.access.union(other.access),
            deny: self.deny.union(other.deny),
        }
    }
}
