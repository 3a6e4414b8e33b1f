//! Passes lines to the thread that writes them, so that no thread of the server waits for standard error.

use crate::LineKind;
use crate::line::Line;
use crate::waiting::Waiting;
use std::alloc::{AllocError, Global};
use std::sync::{Condvar, Mutex, Wait};
use std::time::{Clock, Duration};

/// The lines of a run that goes on, which a thread of its own writes. Whoever tells one never waits for that: each kind
/// comes at most ten times a second, and what finds no room is dropped. How much is left out or dropped is told.
#[derive(Drop)]
pub struct Lines {
    waiting: Mutex<Waiting>,
    added: Condvar,
    written: Condvar,
}

impl Lines {
    /// No lines. All the memory that lines will ever take is taken now.
    pub(crate) fn new(alloc: Global) -> Result<Lines, AllocError> {
        Ok(Lines {
            waiting: Mutex::new(Waiting::new(alloc)?),
            added: Condvar::new(),
            written: Condvar::new(),
        })
    }

    /// Tells what was composed: each line of it, or that it is left out.
    pub(crate) fn tell<R: Wait + Clock>(&self, rt: &R, kind: LineKind, text: &Line) {
        let second = second_of(rt);
        let mut waiting = self.waiting.lock(rt);
        for line in text.bytes().split_inclusive(|byte| *byte == b'\n') {
            waiting.add(second, kind, line);
        }
        drop(waiting);
        self.added.notify_one();
    }

    /// Tells how many lines of each kind were left out so far.
    pub(crate) fn tell_left_out<R: Wait>(&self, rt: &R) {
        self.waiting.lock(rt).tell_left_out();
        self.added.notify_one();
    }

    /// Ends the lines, of which no more come, and waits until all are written, but not longer than this.
    pub fn finish<R: Wait + Clock>(&self, rt: &R, most: Duration) {
        let mut waiting = self.waiting.lock(rt);
        waiting.close();
        self.added.notify_one();
        let _ = self
            .written
            .wait_timeout_while(rt, waiting, most, |waiting| !waiting.is_written());
    }

    /// Waits for lines, and takes them in exchange for this memory. Returns whether there are some, or more may come.
    pub(crate) fn take<R: Wait + Clock>(&self, rt: &R, memory: &mut Vec<u8>) -> bool {
        let waiting = self.added.wait_while(rt, self.waiting.lock(rt), |waiting| {
            waiting.is_idle() && !waiting.has_left_out()
        });
        // Where some were left out, and no further line tells that, this does.
        let second = Duration::from_secs(1);
        let (mut waiting, end) = self
            .added
            .wait_timeout_while(rt, waiting, second, |waiting| waiting.is_idle());
        if end.timed_out() {
            waiting.tell_left_out();
        }
        waiting.take(memory)
    }

    /// What was taken is written.
    pub(crate) fn note_written<R: Wait>(&self, rt: &R) {
        self.waiting.lock(rt).note_written();
        self.written.notify_all();
    }
}

// The second that the clock shows, if it can be read.
fn second_of<R: Clock>(rt: &R) -> Option<u64> {
    match rt.monotonic() {
        Ok(time) => Some(time.as_secs()),
        Err(_) => None,
    }
}
