//! The state of a parser of fragments, which may be cut anywhere, also inside a header.

ghost use Rattle.std.specs.Prelude.{◌+◌, ◌<◌, ◌≤◌, ◌↔◌, ◌++◌, List, ℕ, length, take, IfOk, IsTrue};
ghost use Rattle.nfs_rpc.specs.Records.{IsHeader, IsAt};
ghost use Rattle.nfs_rpc.specs.Keeping.{IsPlace, IsIncomplete, Fits, Begins};

use crate::records::{HEADER_LEN, LAST_FRAGMENT, RECORD_LIMIT};
use byteorder::{BigEndian, ByteOrder};
use std::alloc::AllocError;

/// What a fragment's four-byte header says about the fragment (RFC 5531, section 11).
#[derive(Clone, Copy)]
struct Header {
    is_last: bool,
    /// How many bytes the fragment has, without this header.
    len: usize,
}

/// Where in a fragment the bytes received so far end.
#[derive(Clone, Copy)]
pub(crate) enum Place {
    /// After the first `len` of these bytes of a header.
    InHeader { bytes: [u8; HEADER_LEN], len: usize },
    /// In a body, `wanted` bytes before the end of the fragment.
    InBody { wanted: usize, is_last: bool },
}

impl Place {
    /// Before the first byte of a fragment.
    pub(crate) const START: Place = Place::InHeader {
        bytes: [0; HEADER_LEN],
        len: 0,
    };
}

/// Reads the header at the front of a text.
fn header_at(text: &[u8]) -> Header
    requires { 4 ≤ length text.now }
    ensures { IsHeader result.is_last result.len (take 4 text.now) }
{
    let word = BigEndian::read_u32(text);
    Header {
        is_last: word >= LAST_FRAGMENT,
        len: (word % LAST_FRAGMENT) as usize,
    }
}

/// The place after more bytes of a header.
fn after_part(bytes: [u8; HEADER_LEN], len: usize, part: &[u8]) -> Place
    requires { len + length part.now ≤ 4 }
    ensures place { IsPlace result }
    ensures at_text { (text bodies : List ℕ) → IsAt text bodies (Place.InHeader bytes len)
        → IsAt (text ++ part.now) bodies result }
{
    let end = len + part.len();
    let mut header = bytes;
    header[len..end].copy_from_slice(part);
    if end < HEADER_LEN {
        return Place::InHeader {
            bytes: header,
            len: end,
        };
    }
    let Header { is_last, len } = header_at(&header);
    Place::InBody {
        wanted: len,
        is_last,
    }
}

/// Takes bytes from the front of a piece, at most as many as the header or the body still needs. Bytes of a body are
/// added to the bodies. Returns the new place and how many bytes were taken.
pub(crate) fn take_front(
    bodies: &mut Vec<u8>,
    place: Place,
    piece: &[u8],
) -> Result<(Place, usize), AllocError>
    requires place { IsPlace place }
    requires some { 0 < length piece.now }
    requires more { IsIncomplete place }
    ensures place { IfOk result (λ r. IsPlace r.0) }
    ensures count { IfOk result (λ r. (0 < r.1) × (r.1 ≤ length piece.now)) }
    ensures at_text { IfOk result (λ r. (text : List ℕ) → IsAt text bodies.old.items place
        → IsAt (text ++ take r.1 piece.now) bodies.new.items r.0) }
    ensures within { IfOk result (λ r.
        Fits (length bodies.old.items) place → length bodies.new.items ≤ RECORD_LIMIT) }
    ensures begins { Begins bodies.old.items bodies.new.items }
{
    match place {
        Place::InHeader { bytes, len } => {
            let count = (HEADER_LEN - len).min(piece.len());
            Ok((after_part(bytes, len, &piece[..count]), count))
        }
        Place::InBody { wanted, is_last } => {
            let count = wanted.min(piece.len());
            bodies.extend_from_slice(&piece[..count])?;
            Ok((
                Place::InBody {
                    wanted: wanted - count,
                    is_last,
                },
                count,
            ))
        }
    }
}

/// Whether a record is within `RECORD_LIMIT`, as far as its headers up to this place say.
pub(crate) fn fits(gathered: usize, place: Place) -> bool
    requires { gathered ≤ RECORD_LIMIT }
    ensures { IsTrue result ↔ Fits gathered place }
{
    match place {
        Place::InHeader { .. } => true,
        Place::InBody { wanted, .. } => wanted <= RECORD_LIMIT - gathered,
    }
}
