//! The dialogue with the test that drives the program: an order is read, then its answer is written.

use crate::answer::Answer;
use crate::failure::Failure;
use crate::input::Input;
use crate::order::Order;
use std::alloc::Global;
use std::io::{Read, Write};

/// The test's side of the program: it sends an order, and gets an answer before the next order is read.
#[derive(Drop)]
pub(crate) struct Session<I, O> {
    pub(crate) alloc: Global,
    pub(crate) input: Input<I>,
    output: O,
}

impl<I: Read + Drop, O: Write + Drop> Session<I, O> {
    pub(crate) fn new(alloc: Global, input: I, output: O) -> Result<Session<I, O>, Failure> {
        let input = Input::new(alloc, input)?;
        Ok(Session {
            alloc,
            input,
            output,
        })
    }

    pub(crate) fn tell(&mut self, answer: &Answer) -> Result<(), Failure> {
        if self.output.write_all(answer.bytes()).is_err() || self.output.flush().is_err() {
            return Err(Failure::Output);
        }
        Ok(())
    }

    pub(crate) fn tell_word(&mut self, word: u32) -> Result<(), Failure> {
        let mut answer = Answer::new(self.alloc);
        answer.put_word(word)?;
        self.tell(&answer)
    }

    /// The next order, or none where the input ends.
    pub(crate) fn next_order(&mut self) -> Result<Option<Order>, Failure> {
        Order::read(self.alloc, &mut self.input)
    }
}
