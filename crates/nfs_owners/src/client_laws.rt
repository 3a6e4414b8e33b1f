//! Laws on clients' records: path marks, slots, numbers, and which records a newcomer replaces.

ghost use Rattle.nfs_owners.specs.ClientLaws.{MarksKeepClients};
ghost use Rattle.nfs_owners.specs.SlotLaws.{NoNumberIsLeft, NumbersComeOnce, OneGivesWay, OthersStay, SlotsAreApart, UpdatesStay};

/// The law that a mark of a client's path leaves all clients as they are, and changes nothing else of their records.
pub fn marks_keep_clients()
    ensures { MarksKeepClients }
{}

/// The law that no two live clients have one slot, and that a number of which a later generation was given has no
/// record.
pub fn slots_are_apart()
    ensures { SlotsAreApart }
{}

/// The law that by a change just the number that it gives comes to those that were given, which wasn't given before;
/// and that who is removed leaves what was given.
pub fn numbers_come_once()
    ensures { NumbersComeOnce }
{}

/// The law that a newcomer finds no number exactly where a client is live in each slot, as long as no slot's
/// generations can be used up.
pub fn no_number_is_left()
    ensures { NoNumberIsLeft }
{}

/// The law that of other ids' unconfirmed records only one gives way to a newcomer, the oldest that may, and none where
/// a slot is free.
pub fn one_gives_way()
    ensures { OneGivesWay }
{}

/// The law that a newcomer leaves the unconfirmed records of other ids that have a live client's number.
pub fn updates_stay()
    ensures { UpdatesStay }
{}

/// The law that a newcomer leaves the unconfirmed records of other ids in other slots, and all confirmed ones.
pub fn others_stay()
    ensures { OthersStay }
{}
