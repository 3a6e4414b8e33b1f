//! How a sweep treated one client, for the sweep's counts.

/// How a sweep treated one client.
#[derive(Clone, Copy)]
pub(crate) enum VisitCase {
    /// The lease was closed, and the client removed.
    Expired,
    /// The lease isn't over.
    Kept,
    /// The lease was renewed between the look and the attempt to close it.
    Changed,
    /// There was no room for an entry in the journal.
    Refused,
}
