//! Sends the lines of one kind to the thread that writes them, by std's trait for standard error.

use crate::line::Line;
use crate::{LineKind, Lines};
use std::fmt::Display;
use std::io;
use std::io::{Eprint, Write};
use std::sync::Wait;
use std::time::Clock;

/// Tells lines of one kind.
#[derive(Drop)]
pub struct Teller<'a, R> {
    rt: &'a R,
    lines: &'a Lines,
    kind: LineKind,
}

impl<'a, R: Wait + Clock> Teller<'a, R> {
    /// A teller of this kind for these lines.
    pub fn new(rt: &'a R, lines: &'a Lines, kind: LineKind) -> Teller<'a, R> {
        Teller { rt, lines, kind }
    }

    /// Tells what was composed.
    pub(crate) fn tell(&self, text: &Line) {
        self.lines.tell(self.rt, self.kind, text);
    }
}

impl<R: Wait + Clock> Eprint for Teller<'_, R> {
    fn eprint<D: Display + Drop>(&self, value: D) -> io::Result<()> {
        let mut text = Line::new();
        text.write_fmt(value)?;
        self.tell(&text);
        Ok(())
    }

    fn eprintln<D: Display + Drop>(&self, value: D) -> io::Result<()> {
        let mut text = Line::new();
        text.writeln(value)?;
        self.tell(&text);
        Ok(())
    }
}
