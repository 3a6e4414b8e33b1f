//! Prints bytes that a client chose, so that no client can forge a line or a terminal's control sequence.

use std::fmt;
use std::fmt::{Display, Formatter};

/// Bytes that a client gave, as a line tells them: one word that prints. Of none it is `""`.
#[derive(Clone, Copy)]
pub(crate) struct ShownBytes<'a>(pub(crate) &'a [u8]);

impl Display for ShownBytes<'_> {
    fn fmt<W: fmt::Write>(&self, f: &mut Formatter<W>) -> fmt::Result {
        if self.0.is_empty() {
            return f.write_str("\"\"");
        }
        for byte in self.0 {
            match *byte {
                b' ' => f.write_str("\\x20")?,
                byte => write!(f, "{}", byte.escape_ascii())?,
            }
        }
        Ok(())
    }
}
