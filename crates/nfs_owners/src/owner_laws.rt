//! Laws that a change of one owner or client leaves all others.

ghost use Rattle.nfs_owners.specs.OwnerLaws.{ClientTakesItsOwners, KindsAreApart, OthersStay};

/// The law that an open owner and a lock owner are never the same owner.
pub fn kinds_are_apart()
    ensures { KindsAreApart }
{}

/// The law that what is done to an owner leaves every other.
pub fn other_owners_stay()
    ensures { OthersStay }
{}

/// The law that with a client go all of its owners, and no other.
pub fn client_takes_its_owners()
    ensures { ClientTakesItsOwners }
{}
