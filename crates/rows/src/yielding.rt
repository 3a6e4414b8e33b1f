//! A reader that yields to other threads before each piece, so that their calls interleave.

ghost use Rattle.std.specs.Prelude.{Some};

use std::io::{self, Read};
use std::thread;

/// Gives its bytes in order, in pieces, before each of which other threads are let go on.
#[derive(Drop)]
pub(crate) struct Yielding<'a> {
    rest: &'a [u8],
    /// The most bytes that a read gives, but for one, which it gives at least.
    piece: usize,
}

impl<'a> Yielding<'a> {
    pub(crate) fn new(bytes: &'a [u8], piece: usize) -> Yielding<'a> {
        Yielding { rest: bytes, piece }
    }
}

impl Read for Yielding<'_> {
    ghost remaining = { λ y. Some y.rest.now };

    fn read(&mut self, buffer: &mut [u8]) -> io::Result<usize> {
        thread::yield_now();
        let len = self.piece.max(1).min(buffer.len());
        self.rest.read(&mut buffer[..len])
    }
}
