//! The different shares of an open's OPENs, which decide what OPEN_DOWNGRADE may keep.

ghost use Rattle.std.specs.Prelude.{◌≡◌, ◌↔◌, IsTrue, [], ◌∷◌, filter};
ghost use Rattle.nfs_share.specs.Share.{contains, is_same};
ghost use Rattle.std.specs.List.{list_any};
ghost use Rattle.nfs_share.specs.Shares.{IsLawfulDowngrade, union_of, with_share};

use crate::Share;
use arrayvec::ArrayVec;
use std::marker::Model;

/// How many different shares there are.
pub const SHARE_COUNT: usize = 16;

/// The shares of the OPENs that make up one open, in the order in which they came, each once. Contracts see the list of
/// them.
#[derive(Drop)]
pub struct Shares {
    pairs: ArrayVec<Share, SHARE_COUNT>,
}

impl Model for Shares {
    ghost use Rattle.std.specs.Prelude.{List};
    ghost use Rattle.std.specs.List.{IsDistinct};
    ghost use Rattle.nfs_share.specs.declared.share.Share.{Share};
    ghost use Rattle.nfs_share.specs.Share.{is_same};

    ghost Value = { List Share };

    ghost view = { λ s. s.pairs.items };

    ghost invariant = { λ s. IsDistinct is_same s.pairs.items };
}

impl Shares {
    /// The shares of an open that has this share alone.
    pub fn of(share: Share) -> Shares
        ensures { result ≡ share ∷ [] }
    {
        let mut pairs = ArrayVec::new();
        pairs.push(share);
        Shares { pairs }
    }

    /// The shares.
    pub fn as_slice(&self) -> &[Share]
        ensures { result.now ≡ self.now }
    {
        self.pairs.as_slice()
    }

    /// All their access, with all their denials.
    pub fn union(&self) -> Share
        ensures { result ≡ union_of self.now }
    {
        let mut union = Share::NONE;
        for pair in self.as_slice() {
            union = union.union(*pair);
        }
        union
    }

    /// Whether the share is among them.
    pub fn has(&self, share: Share) -> bool
        ensures { result ≡ list_any (is_same share) self.now }
    {
        self.as_slice().iter().any(|pair| share == *pair)
    }

    /// Adds the share, unless it is there already.
    pub fn insert(&mut self, share: Share)
        ensures { self.new ≡ with_share share self.old }
    {
        if !self.has(share) {
            self.pairs.push(share);
        }
    }

    /// Whether OPEN_DOWNGRADE to this share is allowed: it is the union of some of the shares, of one at least
    /// (RFC 7530, section 9.11).
    pub fn can_downgrade_to(&self, share: Share) -> bool
        ensures { IsTrue result ↔ IsLawfulDowngrade self.now share }
    {
        self.has_within(share) && self.union_within(share) == share
    }

    // Whether this share contains one of them.
    fn has_within(&self, share: Share) -> bool
        ensures { result ≡ list_any (contains share) self.now }
    {
        self.as_slice().iter().any(|pair| share.contains(*pair))
    }

    // The union of those that this share contains.
    fn union_within(&self, share: Share) -> Share
        ensures { result ≡ union_of (filter (contains share) self.now) }
    {
        let mut union = Share::NONE;
        for pair in self.as_slice() {
            if share.contains(*pair) {
                union = union.union(*pair);
            }
        }
        union
    }

    /// Removes the shares that this share doesn't contain.
    pub fn keep_within(&mut self, share: Share)
        ensures { self.new ≡ filter (contains share) self.old }
    {
        self.pairs.retain(|pair| share.contains(*pair));
    }
}
