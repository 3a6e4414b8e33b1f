//! The answers to a run's orders, which wait for the thread that writes them.

use crate::line::Line;
use crate::outgoing::Outgoing;
use crate::{LineKind, Lines, Teller};
use nfs_orders::Answer;
use std::alloc::{AllocError, Global};
use std::io::{Eprint, Write};
use std::sync::{Condvar, Mutex, Wait};
use std::time::{Clock, Duration};

/// The answers to the orders of a run, which a thread of its own writes. Whoever tells one never waits for that: what
/// finds no room is dropped.
#[derive(Drop)]
pub struct Answers {
    waiting: Mutex<WaitingAnswers>,
    added: Condvar,
    written: Condvar,
}

// The answers that wait to be written.
#[derive(Drop)]
struct WaitingAnswers {
    outgoing: Outgoing,
    // Whether it was told that some are dropped.
    is_drop_told: bool,
}

impl Answers {
    /// None yet. All the memory that they ever take is made now.
    pub(crate) fn new(alloc: Global) -> Result<Answers, AllocError> {
        Ok(Answers {
            waiting: Mutex::new(WaitingAnswers {
                outgoing: Outgoing::new(alloc)?,
                is_drop_told: false,
            }),
            added: Condvar::new(),
            written: Condvar::new(),
        })
    }

    /// Tells an answer. When the first one is dropped, one of these lines says so.
    pub fn tell<R: Wait + Clock>(&self, rt: &R, lines: &Lines, answer: Answer) {
        let mut text = Line::new();
        let _ = text.writeln(answer);
        if self.waiting.lock(rt).add(text.bytes()) {
            let teller = Teller::new(rt, lines, LineKind::Run);
            let _ = eprintln!(teller; "answers are dropped: standard output takes no more");
        }
        self.added.notify_one();
    }

    /// Ends the answers, of which no more come, and waits until all are written, but not longer than this.
    pub fn finish<R: Wait + Clock>(&self, rt: &R, most: Duration) {
        let mut waiting = self.waiting.lock(rt);
        waiting.outgoing.close();
        self.added.notify_one();
        let _ = self.written.wait_timeout_while(
            rt,
            waiting,
            most,
            |waiting| !waiting.outgoing.is_written(),
        );
    }

    /// Waits for answers, and takes them in exchange for this memory. Returns whether there are some, or more may come.
    pub(crate) fn take<R: Wait>(&self, rt: &R, memory: &mut Vec<u8>) -> bool {
        let mut waiting = self.added.wait_while(
            rt,
            self.waiting.lock(rt),
            |waiting| waiting.outgoing.is_idle(),
        );
        waiting.outgoing.take(memory)
    }

    /// What was taken is written.
    pub(crate) fn note_written<R: Wait>(&self, rt: &R) {
        self.waiting.lock(rt).outgoing.note_written();
        self.written.notify_all();
    }
}

impl WaitingAnswers {
    // Adds an answer, or drops it. Returns whether it is the first one that is dropped.
    fn add(&mut self, text: &[u8]) -> bool {
        if self.outgoing.put(text) || self.is_drop_told {
            return false;
        }
        self.is_drop_told = true;
        true
    }
}
