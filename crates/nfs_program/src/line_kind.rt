//! The kinds of lines, each of which is limited on its own.

/// What a line is about.
#[derive(Clone, Copy, PartialEq, Eq)]
pub enum LineKind {
    /// How a connection ended.
    Connection,
    /// What became of a callback.
    Callback,
    /// What was seen of the journal, and what becomes of its files.
    Journal,
    /// The run itself.
    Run,
}

impl LineKind {
    /// The words by which a line tells of others of this kind.
    pub(crate) fn name(self) -> &'static str {
        match self {
            LineKind::Connection => "connections",
            LineKind::Callback => "callbacks",
            LineKind::Journal => "the journal",
            LineKind::Run => "the run",
        }
    }
}
