//! What was done at the words, and seen of them. This stands in proofs alone: no value of it is made.

/// What one seat did, or saw, of one client's lease. It is told as that client reads the word of its slot: as 0 where
/// neither its lease nor a later one of the slot was opened, as a moment and 1 where its lease is open, and else as
/// 2^40 - 1.
pub struct Event {
    /// The client's number.
    pub client: u32,
    /// What was done or seen.
    pub deed: Deed,
}

/// What was done or seen of a client's lease.
pub enum Deed {
    /// A load: what was read.
    Look(u64),
    /// A raise to a moment and 1: the moment, and what was found.
    Renew(u64, u64),
    /// An exchange of a vacant or closed word for a moment and 1: the moment.
    Open(u64),
    /// An attempt to exchange a moment and 1 for the closed word: the moment that was seen, that of the attempt, and
    /// whether it was done.
    Close(u64, u64, bool),
    /// A raise to the closed word.
    Retire,
}
