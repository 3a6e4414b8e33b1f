//! Tells the lease table which clients became live or ended.

/// Which client becomes live by a change, or is live no longer. Clients are told by their numbers.
#[derive(Clone, Copy, PartialEq, Eq)]
pub enum LiveChange {
    /// Nobody came or went.
    Same,
    /// This client became live.
    Comes(u32),
    /// One client became live in the place of another.
    Replaces { comes: u32, goes: u32 },
    /// This client isn't live any more.
    Goes(u32),
}
