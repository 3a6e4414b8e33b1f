//! One connection of an order: the bytes that the client sends, and the replies that it got.

use crate::calls::Calls;
use crate::failure::Failure;
use crate::input::Input;
use crate::memory_link::MemoryParts;
use crate::rising::Rising;
use crate::yielding::Yielding;
use std::alloc::Global;
use std::io::Read;

/// What is sent on a connection, and what was replied so far.
#[derive(Drop)]
pub(crate) struct Connection {
    sent: Vec<u8>,
    replies: Vec<u8>,
}

impl Connection {
    /// What is sent. There is room for the replies before anything is served, since a reply that is lost isn't one that
    /// was refused.
    pub(crate) fn read<R: Read + Drop>(
        alloc: Global,
        input: &mut Input<R>,
    ) -> Result<Connection, Failure> {
        let room = input.word()?;
        let sent = input.part()?;
        let replies = Vec::with_capacity(alloc, room as usize)?;
        Ok(Connection { sent, replies })
    }

    /// What the connection is over: a read gives at most a piece.
    pub(crate) fn parts<'a, 'c>(
        &'a mut self,
        calls: &'c Calls,
        piece: usize,
    ) -> MemoryParts<'a, Yielding<'a>, Rising<'c>> {
        let Connection { sent, replies } = self;
        MemoryParts {
            source: Yielding::new(sent.as_slice(), piece),
            replies,
            clock: Rising::new(calls),
        }
    }

    pub(crate) fn into_replies(self) -> Vec<u8> {
        let Connection { sent: _, replies } = self;
        replies
    }
}
