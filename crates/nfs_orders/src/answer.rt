//! The line that answers an order, and the counts of a sweep that it tells.

use crate::{ClientPath, OrderError};
use std::fmt;
use std::fmt::{Display, Formatter};

/// What came of an order, displayed as the line that answers it.
#[derive(Clone, Copy, Debug, PartialEq, Eq)]
pub enum Answer {
    /// The moment.
    Moment(u64),
    /// What a sweep did, and at which moment.
    Swept(u64, SweptCounts),
    /// The path of a client is marked so.
    Path(ClientPath),
    /// How many entries the journal has.
    Entries(usize),
    /// How many entries the file of the journal's beginning has.
    Journal(usize),
    /// The run has ended.
    Ended,
    /// The order isn't done.
    Error(OrderError),
}

/// What a sweep did.
#[derive(Clone, Copy, Debug, PartialEq, Eq)]
pub struct SweptCounts {
    /// How many clients it removed, and how many of those that were to be removed stay for want of room.
    pub expired: u32,
    pub refused: u32,
    /// How many delegations it revoked.
    pub revoked: u32,
    /// How many owners it forgot.
    pub forgotten: u32,
    /// Whether it stopped at a delegation or an owner for want of room.
    pub is_stopped: bool,
}

impl Display for Answer {
    fn fmt<W: fmt::Write>(&self, f: &mut Formatter<W>) -> fmt::Result {
        match self {
            Answer::Moment(moment) => write!(f, "moment {moment}"),
            Answer::Swept(moment, counts) => write!(f, "moment {moment}: {counts}"),
            Answer::Path(path) => write!(f, "{path}"),
            Answer::Entries(count) => write!(f, "entries {count}"),
            Answer::Journal(count) => write!(f, "journal {count} entries"),
            Answer::Ended => f.write_str("ended"),
            Answer::Error(error) => write!(f, "error: {error}"),
        }
    }
}

impl Display for SweptCounts {
    fn fmt<W: fmt::Write>(&self, f: &mut Formatter<W>) -> fmt::Result {
        let (expired, revoked, forgotten) = (self.expired, self.revoked, self.forgotten);
        write!(
            f,
            "expired {expired} revoked {revoked} forgotten {forgotten}"
        )?;
        if self.refused > 0 {
            write!(f, " refused {}", self.refused)?;
        }
        if self.is_stopped {
            f.write_str(" stopped")?;
        }
        Ok(())
    }
}
