//! A line that is written once others were told, which stand before it.

use arrayvec::ArrayVec;
use std::io::{self, ErrorKind, Write};

// How long the line may be: that of a fault is shorter.
const LINE_LIMIT: usize = 128;

#[derive(Drop)]
pub(crate) struct HeldLine {
    bytes: ArrayVec<u8, LINE_LIMIT>,
}

impl HeldLine {
    pub(crate) fn new() -> HeldLine {
        HeldLine {
            bytes: ArrayVec::new(),
        }
    }

    pub(crate) fn bytes(&self) -> &[u8] {
        self.bytes.as_slice()
    }
}

impl Write for HeldLine {
    fn write(&mut self, bytes: &[u8]) -> io::Result<usize> {
        match self.bytes.try_extend_from_slice(bytes) {
            Ok(()) => Ok(bytes.len()),
            Err(_) => Err(io::Error::from(ErrorKind::WriteZero)),
        }
    }

    fn flush(&mut self) -> io::Result<()> {
        Ok(())
    }
}
