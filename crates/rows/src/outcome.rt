//! What the program answers for each connection that it served: its end, its replies, and its receipts.

use crate::answer::Answer;
use crate::sweeping::Sweeps;
use nfs_server::ServeError;
use std::alloc::AllocError;

/// What came of a connection.
#[derive(Drop)]
pub(crate) struct ConnectionOutcome {
    pub(crate) result: Result<usize, ServeError>,
    pub(crate) replies: Vec<u8>,
    /// The numbers of the receipts that its seat was given.
    pub(crate) receipts: Vec<u32>,
}

impl ConnectionOutcome {
    // The number of the connection's error, or 0; how many bytes came after the last whole record, or 0; the replies;
    // the receipts.
    fn put(&self, answer: &mut Answer) -> Result<(), AllocError> {
        match self.result {
            Ok(rest) => {
                answer.put_word(0)?;
                answer.put_count(rest)?;
            }
            Err(error) => {
                answer.put_word(error.number())?;
                answer.put_word(0)?;
            }
        }
        answer.put_part(self.replies.as_slice())?;
        answer.put_words(self.receipts.as_slice())
    }
}

/// What came of connections that were served by one order.
#[derive(Drop)]
pub(crate) struct BatchOutcome {
    /// What came of each connection, in the order of the connections.
    pub(crate) outcomes: Vec<ConnectionOutcome>,
    pub(crate) sweeps: Sweeps,
}

impl BatchOutcome {
    pub(crate) fn put(&self, answer: &mut Answer) -> Result<(), AllocError> {
        for outcome in &self.outcomes {
            outcome.put(answer)?;
        }
        answer.put_word(self.sweeps.count)?;
        answer.put_word(self.sweeps.expired)
    }
}
