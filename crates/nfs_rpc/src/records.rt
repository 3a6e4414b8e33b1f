//! Splits a TCP stream into RPC records, from pieces of any size.

ghost use Rattle.std.specs.Prelude.{◌≡◌, ◌+◌, ◌^◌, ◌≤◌, ◌↔◌, ◌∷◌, [], ℕ, List, false, length, OnOk, IsErrOf, IfSome, IfNone, IsTrue};
ghost use Rattle.nfs_rpc.specs.Records.{IsRest, IsTooLong, Stream, Keeps, IsStream, IsNew, TakesPiece, OneSplit, SplitGoesOn};
ghost use Rattle.nfs_rpc.specs.RecordError.{number_of};
ghost use Rattle.nfs_rpc.specs.Keeping.{IsSound, messages_of};

use crate::unfinished::{Unfinished, take_piece};
use std::alloc::Global;
use std::collections::VecDeque;
use std::marker::Model;
use thiserror::Error;

/// The greatest length of a record in bytes, not counting the headers of its fragments.
pub const RECORD_LIMIT: usize = 262_144;

/// The length of a fragment's header in bytes.
pub const HEADER_LEN: usize = 4;

/// The bit in a header that marks the last fragment of a record.
pub const LAST_FRAGMENT: u32 = 0x8000_0000;

/// Why a piece of a stream was not taken.
#[derive(Clone, Copy, Debug, PartialEq, Eq, Error)]
pub enum RecordError {
    /// A record has more bytes than `RECORD_LIMIT`.
    #[error("a record is above its limit (1)")]
    TooLong = 1,
    /// Memory ran out.
    #[error("no memory (2)")]
    Memory = 2,
}

impl RecordError {
    /// The error's number, 1 or 2.
    pub fn number(&self) -> u32
        ensures { result ≡ number_of self.now }
    {
        *self as u32
    }
}

/// A stream of bytes, which may arrive in pieces of any size, as records of fragments (RFC 5531, section 11).
///
/// Whole records wait in their order until `next` takes them. Of the bytes after them only the bodies of the fragments,
/// the place in the last fragment and the number of the bytes are kept. Once a record is too long, no more bytes are
/// taken.
#[derive(Drop)]
pub struct Records {
    alloc: Global,
    ready: VecDeque<Vec<u8>>,
    /// Where a piece's records are found, which is empty between two pieces, so that its memory is taken once.
    found: VecDeque<Vec<u8>>,
    /// The bodies of the fragments of the record that isn't whole yet.
    bodies: Vec<u8>,
    first: Unfinished,
    fed: u64,
}

impl Model for Records {
    ghost Value = { Stream };

    ghost view = { λ r. record {
      ready = messages_of r.ready.items;
      bodies = r.bodies.items;
      place = r.first.place;
      count = r.first.count;
      is_too_long = r.first.is_too_long;
      fed = r.fed;
    } };

    ghost invariant = { λ r.
        IsSound r.bodies.items r.first × (r.first.count ≤ r.fed) × (r.fed ≤ 2 ^ 40)
        × (r.found.items ≡ []) };
}

impl Records {
    /// A stream of which no bytes have come.
    pub fn new(alloc: Global) -> Records
        ensures empty { IsNew result }
        ensures sound { IsStream result }
    {
        Records {
            alloc,
            ready: VecDeque::new(alloc),
            found: VecDeque::new(alloc),
            bodies: Vec::new(alloc),
            first: Unfinished::NONE,
            fed: 0,
        }
    }

    /// Takes the next piece of the stream. The records that are whole now can be taken by `next`, even if a later one
    /// is too long.
    ///
    /// A record is too long once a header brings it above `RECORD_LIMIT`. TooLong is returned then, and by every later
    /// call, which changes nothing.
    pub fn feed(&mut self, piece: &[u8]) -> Result<(), RecordError>
        requires { self.old.fed + length piece.now ≤ 2 ^ 40 }
        ensures ok { OnOk result
            (TakesPiece self.old self.new piece.now × (self.new.is_too_long ≡ false)) }

        // At the first header of a record that is too long, the piece is still taken,
        // and the records before it are kept.
        ensures too_long { IsErrOf result RecordError.TooLong → IsTrue self.new.is_too_long }
        ensures first { IsErrOf result RecordError.TooLong → self.old.is_too_long ≡ false
            → TakesPiece self.old self.new piece.now }
        ensures again { IsTrue self.old.is_too_long
            → IsErrOf result RecordError.TooLong × (self.new ≡ self.old) }

        ensures memory { IsErrOf result RecordError.Memory → self.new ≡ self.old }
        ensures sound { IsStream self.new }
    {
        if self.first.is_too_long {
            return Err(RecordError::TooLong);
        }
        let first = take_piece(
            self.alloc,
            &mut self.ready,
            &mut self.found,
            &mut self.bodies,
            self.first,
            piece,
        )
        .map_err(|_| RecordError::Memory)?;
        self.first = first;
        self.fed += piece.len() as u64;
        if first.is_too_long {
            return Err(RecordError::TooLong);
        }
        Ok(())
    }

    /// Takes the first record that was not yet taken, without its headers.
    pub fn next(&mut self) -> Option<Vec<u8>>
        ensures some { IfSome result (λ message.
            self.old ≡ record self.new { ready = message.items ∷ self.new.ready }) }
        ensures none { IfNone result ((self.old.ready ≡ []) × (self.new ≡ self.old)) }
    {
        self.ready.pop_front()
    }

    /// How many bytes came after the last whole record, headers included.
    pub fn rest(&self) -> usize
        ensures value { (rest : List ℕ) → Keeps rest self.now → result ≡ length rest }
        ensures none_left { (rest : List ℕ) → Keeps rest self.now → IsRest rest }
        ensures sound { IsStream self.now }
    {
        self.first.count
    }

    /// How many bytes are kept of the record that isn't whole yet.
    pub fn kept(&self) -> usize
        ensures value { result ≡ length self.now.bodies }
        ensures few { result ≤ RECORD_LIMIT }
    {
        self.bodies.len()
    }

    /// How many bytes came altogether.
    pub fn fed(&self) -> u64
        ensures value { result ≡ self.now.fed }
        ensures bounded { result ≤ 2 ^ 40 }
    {
        self.fed
    }

    /// Whether a record is above `RECORD_LIMIT`. The stream takes no more bytes then.
    pub fn is_too_long(&self) -> bool
        ensures value { result ≡ self.now.is_too_long }
        ensures known { (rest : List ℕ) → Keeps rest self.now → (IsTrue result ↔ IsTooLong rest) }
    {
        self.first.is_too_long
    }
}

/// A text is split into records and a rest in only one way.
pub fn one_split()
    ensures { OneSplit }
{}

/// Once a text is split, the split of the text with a piece after it continues from the rest.
pub fn split_goes_on()
    ensures { SplitGoesOn }
{}
