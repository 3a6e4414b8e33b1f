//! What the sweep learns of an owner that was forgotten, so that it looks at each owner once.

/// An open owner that was forgotten.
#[derive(Clone, Copy, PartialEq, Eq)]
pub struct Forgotten {
    /// The number of the journal's entry of its end.
    pub number: u32,
    /// The number of the entry that had recorded the owner.
    pub recorded: u32,
}
