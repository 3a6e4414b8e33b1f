//! An order, and how a line is read as one.

use crate::OrderError;
use crate::word::Word;
use std::fmt;
use std::fmt::{Display, Formatter};

// How many words an order has at most.
const MOST_WORDS: usize = 4;

// For how many seconds a wait goes on at most, if it doesn't say, and if it does.
const WAIT_SECONDS: u32 = 5;

const MOST_WAIT_SECONDS: u32 = 600;

/// What a line of the input orders.
#[derive(Clone, Copy, Debug, PartialEq, Eq)]
pub enum Order {
    /// To move the moment on by so many seconds, and then to sweep.
    Advance(u64),
    /// To sweep.
    Sweep,
    /// To tell the moment.
    Moment,
    /// To mark the path of a client.
    Mark(ClientPath),
    /// To wait until the path of a client is marked so, but no longer than so many seconds.
    Wait(ClientPath, u32),
    /// To tell how many entries the journal has.
    Entries,
    /// To bring the file of the journal's beginning up to date.
    Journal,
    /// To end the run.
    End,
}

/// Whether callbacks reach a client.
#[derive(Clone, Copy, Debug, PartialEq, Eq)]
pub struct ClientPath {
    /// The client's number.
    pub client: u32,
    pub is_up: bool,
}

impl Display for ClientPath {
    fn fmt<W: fmt::Write>(&self, f: &mut Formatter<W>) -> fmt::Result {
        let client = self.client;
        let way = if self.is_up { "up" } else { "down" };
        write!(f, "client {client} {way}")
    }
}

impl Order {
    /// The order of a line, which is given without its end. Words stand between blanks.
    pub fn read(line: &[u8]) -> Result<Order, OrderError> {
        let mut words = [Word::Other; MOST_WORDS];
        let mut count = 0;
        for text in line.split(|byte| *byte == b' ') {
            if text.is_empty() {
                continue;
            }
            if count >= MOST_WORDS {
                return Err(OrderError::NoOrder);
            }
            words[count] = Word::of(text);
            count += 1;
        }
        Order::of(&words[..count])
    }

    fn of(words: &[Word]) -> Result<Order, OrderError> {
        match words {
            [Word::Advance, Word::Number(seconds)] => Ok(Order::Advance(*seconds)),
            [Word::Sweep] => Ok(Order::Sweep),
            [Word::Moment] => Ok(Order::Moment),
            [Word::Mark, Word::Number(client), way] => Ok(Order::Mark(path_of(*client, *way)?)),
            [Word::Wait, way, Word::Number(client)] => {
                Ok(Order::Wait(path_of(*client, *way)?, WAIT_SECONDS))
            }
            [Word::Wait, way, Word::Number(client), Word::Number(seconds)] => {
                Ok(Order::Wait(path_of(*client, *way)?, wait_of(*seconds)?))
            }
            [Word::Entries] => Ok(Order::Entries),
            [Word::Journal] => Ok(Order::Journal),
            [Word::End] => Ok(Order::End),
            _ => Err(OrderError::NoOrder),
        }
    }
}

// The path of the client with this number, by the word that says which way it is.
fn path_of(client: u64, way: Word) -> Result<ClientPath, OrderError> {
    let Ok(client) = u32::try_from(client) else {
        return Err(OrderError::NoOrder);
    };
    match way {
        Word::Up => Ok(ClientPath {
            client,
            is_up: true,
        }),
        Word::Down => Ok(ClientPath {
            client,
            is_up: false,
        }),
        _ => Err(OrderError::NoOrder),
    }
}

// For how many seconds a wait goes on.
fn wait_of(seconds: u64) -> Result<u32, OrderError> {
    match u32::try_from(seconds) {
        Ok(seconds) if 1 <= seconds && seconds <= MOST_WAIT_SECONDS => Ok(seconds),
        _ => Err(OrderError::NoOrder),
    }
}
