//! Why an order isn't done, in the words of its answer.

use std::error::Error;
use std::fmt;
use std::fmt::{Display, Formatter};

/// Why an order isn't done. Displayed, it stands behind `error: ` in the answer.
#[derive(Clone, Copy, Debug, PartialEq, Eq)]
pub enum OrderError {
    /// The line is no order.
    NoOrder,
    /// The line has more bytes than a line may have.
    TooLong,
    /// The input ends inside the line.
    Cut,
    /// As many orders wait already as may.
    TooMany,
    /// The moment would be above the last one, which is this.
    Moment(u64),
    /// The client with this number isn't live.
    NotLive(u32),
    /// A path wasn't marked so within so many seconds.
    NotWithin(u32),
    /// The run ends, so there is nothing to wait for.
    RunEnds,
    /// No file has the journal's beginning.
    NoJournal,
    /// The file of the journal's beginning can't be kept any further.
    JournalLost,
    /// The journal has no room for an entry.
    Full,
    /// Memory ran out.
    Memory,
}

impl Display for OrderError {
    fn fmt<W: fmt::Write>(&self, f: &mut Formatter<W>) -> fmt::Result {
        let words = match self {
            OrderError::Moment(most) => return write!(f, "a moment is {most} at most"),
            OrderError::NotLive(client) => return write!(f, "client {client} isn't live"),
            OrderError::NotWithin(seconds) => return write!(f, "not within {seconds} s"),
            OrderError::NoOrder => {
                "no order: there are `advance N`, `sweep`, `moment`, `mark CLIENT up|down`, \
                `wait up|down CLIENT [1 to 600]`, `entries`, `journal` and `end`"
            }
            OrderError::TooLong => "a line has 1024 bytes at most",
            OrderError::Cut => "the input ends inside the line",
            OrderError::TooMany => "64 orders wait already",
            OrderError::RunEnds => "the run ends",
            OrderError::NoJournal => "there is no `--journal`",
            OrderError::JournalLost => "the file can't be kept",
            OrderError::Full => "the journal is full",
            OrderError::Memory => "no memory",
        };
        f.write_str(words)
    }
}

impl Error for OrderError {}
