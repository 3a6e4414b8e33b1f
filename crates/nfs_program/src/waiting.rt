//! The lines that wait for the thread that writes them, in memory that was taken when the run began.

ghost use Rattle.std.specs.Prelude.{◌≡◌, IsTrue};

use crate::LineKind;
use crate::line::Line;
use crate::outgoing::Outgoing;
use crate::rate::Rate;
use std::alloc::{AllocError, Global};
use std::io::Write;

/// Lines that wait to be written, in memory that is there beforehand and doesn't grow.
#[derive(Drop)]
pub(crate) struct Waiting {
    outgoing: Outgoing,
    // How many lines found no room, which wasn't told yet.
    lost: u64,
    connections: Rate,
    callbacks: Rate,
    journal: Rate,
    run: Rate,
}

impl Waiting {
    /// No lines. All the memory that waiting lines will ever take is taken now.
    pub(crate) fn new(alloc: Global) -> Result<Waiting, AllocError> {
        Ok(Waiting {
            outgoing: Outgoing::new(alloc)?,
            lost: 0,
            connections: Rate::new(),
            callbacks: Rate::new(),
            journal: Rate::new(),
            run: Rate::new(),
        })
    }

    /// Adds a line in this second of the clock, if that can be read, or counts it where its kind came too often.
    pub(crate) fn add(&mut self, second: Option<u64>, kind: LineKind, line: &[u8]) {
        if let Some(second) = second {
            self.turn(second);
        }
        let is_admitted = match kind {
            LineKind::Connection => self.connections.admits(),
            LineKind::Callback => self.callbacks.admits(),
            LineKind::Journal => self.journal.admits(),
            LineKind::Run => self.run.admits(),
        };
        if is_admitted {
            self.put(line, 1);
        }
    }

    // Begins this second. What was left out before it is told.
    fn turn(&mut self, second: u64) {
        let connections = self.connections.turn(second);
        let callbacks = self.callbacks.turn(second);
        let journal = self.journal.turn(second);
        let run = self.run.turn(second);
        if connections || callbacks || journal || run {
            self.tell_left_out();
        }
    }

    /// Tells how many lines of each kind were left out, if some were.
    pub(crate) fn tell_left_out(&mut self) {
        let connections = self.connections.take_left_out();
        self.tell_count(LineKind::Connection, connections);
        let callbacks = self.callbacks.take_left_out();
        self.tell_count(LineKind::Callback, callbacks);
        let journal = self.journal.take_left_out();
        self.tell_count(LineKind::Journal, journal);
        let run = self.run.take_left_out();
        self.tell_count(LineKind::Run, run);
    }

    // Tells that so many lines of this kind were left out.
    fn tell_count(&mut self, kind: LineKind, count: u64) {
        if count > 0 {
            let mut line = Line::new();
            let _ = writeln!(line, "{}: {count} more lines left out", kind.name());
            self.put(line.bytes(), count);
        }
    }

    // Puts a line behind those that wait. Where there is no room for it, so many lines count as lost.
    fn put(&mut self, line: &[u8], count: u64) {
        if !self.tell_lost() || !self.outgoing.put(line) {
            self.lost = self.lost.saturating_add(count);
        }
    }

    // Tells how many lines were lost, if some were, so that this stands where they would. Returns whether none are
    // untold.
    fn tell_lost(&mut self) -> bool
        ensures { IsTrue result → self.new.lost ≡ 0 }
    {
        if self.lost == 0 {
            return true;
        }
        let mut line = Line::new();
        let _ = writeln!(
            line,
            "{} lines lost: standard error took no more",
            self.lost
        );
        let has_room = self.outgoing.put(line.bytes());
        if has_room {
            self.lost = 0;
        }
        has_room
    }

    /// No more lines come. What is to be told of those that came is told.
    pub(crate) fn close(&mut self) {
        self.tell_left_out();
        self.tell_lost();
        self.outgoing.close();
    }

    /// Takes the bytes that wait, in exchange for this memory, whose own are lost. Returns whether these are some, or
    /// more may come.
    pub(crate) fn take(&mut self, memory: &mut Vec<u8>) -> bool
        ensures { memory.new.items ≡ self.old.outgoing.bytes.items }
    {
        let goes_on = self.outgoing.take(memory);
        self.tell_lost();
        goes_on
    }

    /// What was taken is written.
    pub(crate) fn note_written(&mut self) {
        self.outgoing.note_written();
    }

    /// Whether nothing waits, and more may come.
    pub(crate) fn is_idle(&self) -> bool {
        self.outgoing.is_idle()
    }

    /// Whether lines were left out, and no line has told that yet.
    pub(crate) fn has_left_out(&self) -> bool {
        self.connections.has_left_out()
            || self.callbacks.has_left_out()
            || self.journal.has_left_out()
            || self.run.has_left_out()
    }

    /// Whether all that came is written.
    pub(crate) fn is_written(&self) -> bool {
        self.outgoing.is_written()
    }
}
