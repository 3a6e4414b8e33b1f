//! How an owner's request reaches the rule of its operation: as the next, the first, or a new beginning.

/// How a request of an owner goes on to the rule of its operation (RFC 7530, sections 9.1.7 and 9.1.11).
#[derive(Clone, Copy, PartialEq, Eq)]
pub enum Passage {
    /// The request is the next one of an owner that is known.
    Continues,
    /// The request is an OPEN of an owner that isn't known.
    Begins,
    /// The request is an OPEN of an unconfirmed owner, and not its kept request again: the owner starts anew.
    Restarts,
}
