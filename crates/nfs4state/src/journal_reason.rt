//! Why a file is no journal, and at which byte, for the line before the fault: by a second look at its bytes.

use nfs_journal::{File, Opening};
use nfs_state::Entry;
use nfs_tree::Node;
use std::alloc::Global;
use std::fmt::{self, Display, Formatter};
use std::io::Eprint;
use xdr::{Wire, WireError, read_u32};

// What a list of the file has: one of these, and all.
#[derive(Clone, Copy)]
struct Kind {
    one: &'static str,
    all: &'static str,
}

const NODES: Kind = Kind {
    one: "node",
    all: "nodes",
};

const ENTRIES: Kind = Kind {
    one: "entry",
    all: "entries",
};

// What was expected where the bytes are no part of a journal.
#[derive(Clone, Copy)]
enum Expected {
    Opening,
    // How many there are.
    Count(Kind),
    // The element of this number, from 1 on, of so many.
    Element(Kind, u32, u32),
    End,
    // Zero, in the padding of some bytes.
    Padding,
    // Nothing is wrong with a single part, or memory was refused.
    Unknown,
}

// What of the bytes isn't read, and what was expected at its front.
#[derive(Clone, Copy)]
struct Gap<'b> {
    rest: &'b [u8],
    expected: Expected,
}

impl<'b> Gap<'b> {
    fn of(rest: &'b [u8], error: WireError, expected: Expected) -> Gap<'b> {
        match error {
            WireError::Memory => Gap {
                rest,
                expected: Expected::Unknown,
            },
            _ => Gap { rest, expected },
        }
    }
}

impl Display for Expected {
    fn fmt<W: fmt::Write>(&self, f: &mut Formatter<W>) -> fmt::Result {
        match *self {
            Expected::Opening => f.write_str(
                "a journal begins with NFSJRN02, NFSJRN03 or NFSJRC03, epoch, lease and policy",
            ),
            Expected::Count(kind) => write!(f, "expected the number of {}", kind.all),
            Expected::Element(kind, number, count) => {
                write!(f, "expected {} {number} of {count}", kind.one)
            }
            Expected::End => f.write_str("expected the end behind the last entry"),
            Expected::Padding => f.write_str("expected 0, as padding"),
            Expected::Unknown => f.write_str("lease, nodes or entries that no journal has"),
        }
    }
}

/// Tells by a line on `errors` why the bytes of this file are no journal, such as
/// `run.journal: byte 96: expected entry 2 of 7`.
pub(crate) fn tell_no_journal<E: Eprint>(alloc: Global, errors: &E, path: &str, bytes: &[u8]) {
    let Gap { rest, expected } = first_gap(alloc, bytes);
    let _ = match expected {
        Expected::Unknown => eprintln!(errors; "{path}: {expected}"),
        _ => {
            let at = bytes.len().saturating_sub(rest.len());
            eprintln!(errors; "{path}: byte {at}: {expected}")
        }
    };
}

fn first_gap(alloc: Global, bytes: &[u8]) -> Gap<'_> {
    let rest = match Opening::read(alloc, bytes) {
        Ok((_, rest)) => rest,
        Err(error) => return Gap::of(bytes, error, Expected::Opening),
    };
    let rest = match skip_all::<Node>(alloc, rest, NODES) {
        Ok(rest) => rest,
        Err(gap) => return gap,
    };
    match skip_all::<Entry>(alloc, rest, ENTRIES) {
        Ok([]) => padding_gap(alloc, bytes),
        Ok(rest) => Gap::of(rest, WireError::Short, Expected::End),
        Err(gap) => gap,
    }
}

// The bytes behind a list of such elements.
fn skip_all<'b, T: Wire>(alloc: Global, bytes: &'b [u8], kind: Kind) -> Result<&'b [u8], Gap<'b>> {
    let (count, mut rest) = match read_u32(bytes) {
        Ok(read) => read,
        Err(error) => return Err(Gap::of(bytes, error, Expected::Count(kind))),
    };
    for index in 0..count {
        match T::read(alloc, rest) {
            Ok((_, after)) => rest = after,
            Err(error) => {
                let number = index.saturating_add(1);
                return Err(Gap::of(rest, error, Expected::Element(kind, number, count)));
            }
        }
    }
    Ok(rest)
}

// Where these bytes aren't as what was read of them is written: their padding isn't zero there.
fn padding_gap(alloc: Global, bytes: &[u8]) -> Gap<'_> {
    let rest = first_difference(alloc, bytes).and_then(|at| bytes.get(at..));
    match rest {
        Some(rest) => Gap::of(rest, WireError::Short, Expected::Padding),
        None => Gap::of(bytes, WireError::Short, Expected::Unknown),
    }
}

fn first_difference(alloc: Global, bytes: &[u8]) -> Option<usize> {
    let (file, _) = File::read(alloc, bytes).ok()?;
    let mut again = Vec::new(alloc);
    file.write(&mut again).ok()?;
    again
        .iter()
        .zip(bytes)
        .position(|(one, other)| one != other)
}
