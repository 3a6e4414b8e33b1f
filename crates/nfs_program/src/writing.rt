//! The threads that write a run's lines on standard error and its answers on standard output, and may wait there.

use crate::outgoing::ROOM;
use crate::{Answers, Lines};
use std::alloc::{AllocError, Global};
use std::io::{ErrorKind, Write};
use std::sync::{Arc, Wait};
use std::thread;
use std::thread::Threads;
use std::time::{Clock, Duration};

// For how many milliseconds a write is put off that would have to wait, where it is no use to wait in it.
const PAUSE_MILLIS: u64 = 10;

/// Lines that go to these errors by a thread that nobody waits for: it may wait in a write when the program ends.
pub fn lines_to<
    R: Threads + Wait + Clock + Copy + Send + Sync + 'static,
    E: Write + Send + Drop + 'static,
>(alloc: Global, rt: R, errors: E) -> Result<Arc<Lines, Global>, AllocError> {
    let lines = Arc::new(alloc, Lines::new(alloc)?)?;
    let memory = Vec::with_capacity(alloc, ROOM)?;
    let taken = Arc::try_clone(&lines)?;
    // The handle of the thread is let go, which leaves the thread to itself.
    match thread::spawn(&rt, move || write_each(rt, errors, taken, memory)) {
        Ok(_) => Ok(lines),
        Err(_) => Err(AllocError),
    }
}

/// Answers that go to this output by a thread that nobody waits for, likewise.
pub fn answers_to<
    R: Threads + Wait + Clock + Copy + Send + Sync + 'static,
    O: Write + Send + Drop + 'static,
>(alloc: Global, rt: R, output: O) -> Result<Arc<Answers, Global>, AllocError> {
    let answers = Arc::new(alloc, Answers::new(alloc)?)?;
    let memory = Vec::with_capacity(alloc, ROOM)?;
    let taken = Arc::try_clone(&answers)?;
    match thread::spawn(&rt, move || write_answers(rt, output, taken, memory)) {
        Ok(_) => Ok(answers),
        Err(_) => Err(AllocError),
    }
}

// Writes the answers as they come, until no more come.
fn write_answers<R: Wait + Clock + Copy, O: Write + Drop>(
    rt: R,
    mut output: O,
    answers: Arc<Answers, Global>,
    mut memory: Vec<u8>,
) {
    for _ in rt.forever() {
        let may_come = answers.take(&rt, &mut memory);
        write_bytes(&rt, &mut output, memory.as_slice());
        answers.note_written(&rt);
        if !may_come {
            return;
        }
    }
}

// Writes the lines as they come, until no more come.
fn write_each<R: Wait + Clock + Copy, E: Write + Drop>(
    rt: R,
    mut errors: E,
    lines: Arc<Lines, Global>,
    mut memory: Vec<u8>,
) {
    for _ in rt.forever() {
        let may_come = lines.take(&rt, &mut memory);
        write_bytes(&rt, &mut errors, memory.as_slice());
        lines.note_written(&rt);
        if !may_come {
            return;
        }
    }
}

// Writes these bytes, by as many writes as it takes. At an error the rest is let go, since there is no other place for
// it.
fn write_bytes<R: Wait + Clock, O: Write>(rt: &R, output: &mut O, bytes: &[u8]) {
    let mut rest = bytes;
    for _ in rt.forever() {
        if rest.is_empty() {
            return;
        }
        match output.write(rest) {
            Ok(count) if count > 0 => rest = &rest[count..],
            Err(error) if error.kind() == ErrorKind::Interrupted => {}
            Err(error) if error.kind() == ErrorKind::WouldBlock => {
                rt.sleep(Duration::from_millis(PAUSE_MILLIS));
            }
            _ => return,
        }
    }
}
