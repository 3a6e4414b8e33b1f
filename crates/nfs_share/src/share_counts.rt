//! Counts what some opens do and deny, so that a new open is compared with all of them at once.

ghost use Rattle.std.specs.Prelude.{List, [], ◌≡◌, ◌+◌, ◌<◌, ◌^◌, ◌∷◌, length};
ghost use Rattle.nfs_share.specs.ShareCounts.{counts_of};
ghost use Rattle.nfs_share.specs.Shares.{union_of};
ghost use Rattle.nfs_share.specs.declared.share.Share.{Share};

use crate::count::{lowered, raised};
use crate::{Modes, Share};

/// Of some shares, how many have each mode of access, and how many deny it.
#[derive(Clone, Copy, Debug)]
pub struct ShareCounts {
    readers: usize,
    writers: usize,
    read_deniers: usize,
    write_deniers: usize,
}

impl ShareCounts {
    /// The counts of no shares.
    pub fn new() -> ShareCounts
        ensures { result ≡ counts_of [] }
    {
        ShareCounts {
            readers: 0,
            writers: 0,
            read_deniers: 0,
            write_deniers: 0,
        }
    }

    /// The counts with one more share. There are fewer shares than numbers.
    pub fn plus(self, share: Share) -> ShareCounts
        ensures { (shares : List Share) → self ≡ counts_of shares → length shares + 1 < 2 ^ 64
            → result ≡ counts_of (share ∷ shares) }
    {
        ShareCounts {
            readers: raised(self.readers, share.access.read),
            writers: raised(self.writers, share.access.write),
            read_deniers: raised(self.read_deniers, share.deny.read),
            write_deniers: raised(self.write_deniers, share.deny.write),
        }
    }

    /// The counts without one of the shares.
    pub fn less(self, share: Share) -> ShareCounts
        ensures { (shares : List Share) → self ≡ counts_of (share ∷ shares)
            → result ≡ counts_of shares }
    {
        ShareCounts {
            readers: lowered(self.readers, share.access.read),
            writers: lowered(self.writers, share.access.write),
            read_deniers: lowered(self.read_deniers, share.deny.read),
            write_deniers: lowered(self.write_deniers, share.deny.write),
        }
    }

    /// All access of the shares, with all their denials.
    pub fn union(self) -> Share
        ensures { (shares : List Share) → self ≡ counts_of shares → result ≡ union_of shares }
    {
        Share {
            access: Modes {
                read: self.readers > 0,
                write: self.writers > 0,
            },
            deny: Modes {
                read: self.read_deniers > 0,
                write: self.write_deniers > 0,
            },
        }
    }
}
