//! The two kinds of servers that are tried: a core of its own, and a state that threads share.

/// How connections are served.
#[derive(Clone, Copy, PartialEq, Eq)]
pub(crate) enum Way {
    /// One after the other, with a core of their own.
    Alone,
    /// With a state that threads share, each in a thread and at a seat of its own.
    Together,
}
