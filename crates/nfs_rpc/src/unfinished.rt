//! Adds pieces to the record that isn't whole yet, and undoes this if memory is refused.

ghost use Rattle.std.specs.Prelude.{◌≡◌, ◌+◌, ◌^◌, ◌≤◌, ◌++◌, List, ℕ, [], false, length, take, if◌then◌else◌, is_ok, IfOk, OnOk, OnErr};
ghost use Rattle.nfs_rpc.specs.Keeping.{IsPlace, Fits, TakesMore, Begins, AreFound, Finds, first_or, messages_of};

use crate::place::{Place, fits, take_front};
use crate::records::RECORD_LIMIT;
use std::alloc::{AllocError, Global};
use std::collections::VecDeque;
use std::mem;

/// How much has come of a record that isn't whole yet.
#[derive(Clone, Copy)]
pub(crate) struct Unfinished {
    /// The place after the bytes that came of it.
    pub(crate) place: Place,
    /// How many bytes of it came, headers included.
    pub(crate) count: usize,
    /// Whether a header brings the record above `RECORD_LIMIT`.
    pub(crate) is_too_long: bool,
}

impl Unfinished {
    /// A record of which no bytes have come.
    pub(crate) const NONE: Unfinished = Unfinished {
        place: Place::START,
        count: 0,
        is_too_long: false,
    };
}

/// Goes on to the next fragment if one is whole. After the last fragment the record is whole, and is moved to the
/// records that were found.
fn end_fragment(
    alloc: Global,
    found: &mut VecDeque<Vec<u8>>,
    bodies: &mut Vec<u8>,
    first: Unfinished,
) -> Result<Unfinished, AllocError>
    requires place { IsPlace first.place }
    requires fits { Fits (length bodies.old.items) first.place }
    requires goes { first.is_too_long ≡ false }
    ensures at_place { IfOk result (λ next. TakesMore bodies.new.items next.place) }
    ensures goes { IfOk result (λ next. next.is_too_long ≡ false) }
    ensures count { IfOk result (λ next. next.count ≤ first.count) }
    ensures found { IfOk result (λ next.
        (text : List ℕ) → AreFound text (messages_of found.old.items) bodies.old.items first
        → AreFound text (messages_of found.new.items) bodies.new.items next) }
    ensures begins { first_or (messages_of found.new.items) bodies.new.items
        ≡ first_or (messages_of found.old.items) bodies.old.items }
{
    match first.place {
        Place::InBody {
            wanted: 0,
            is_last: true,
        } => {
            found.reserve(1)?;
            found.push_back_reserved(mem::replace(bodies, Vec::new(alloc)));
            Ok(Unfinished::NONE)
        }
        Place::InBody {
            wanted: 0,
            is_last: false,
        } => Ok(Unfinished {
            place: Place::START,
            ..first
        }),
        _ => Ok(first),
    }
}

/// Adds a piece to an unfinished record, and finds the records that are whole now. If it fails, it may have added a
/// part of the piece, and moved the record to those that were found.
fn take_all(
    alloc: Global,
    found: &mut VecDeque<Vec<u8>>,
    bodies: &mut Vec<u8>,
    from: Unfinished,
    piece: &[u8],
) -> Result<Unfinished, AllocError>
    requires none { found.old.items ≡ [] }
    requires at_place { TakesMore bodies.old.items from.place }
    requires goes { from.is_too_long ≡ false }
    requires room { from.count + length piece.now ≤ 2 ^ 40 }
    ensures ok { IfOk result (λ first.
        Finds bodies.old.items from piece.now
        (messages_of found.new.items) bodies.new.items first) }
    ensures at_place { IfOk result (λ first.
        first.is_too_long ≡ false → TakesMore bodies.new.items first.place) }
    ensures few { IfOk result (λ first. length bodies.new.items ≤ RECORD_LIMIT) }
    ensures begins { Begins bodies.old.items
        (first_or (messages_of found.new.items) bodies.new.items) }
{
    let mut first = from;
    let mut rest = piece;
    while !rest.is_empty() {
        let (place, taken) = take_front(bodies, first.place, rest)?;
        rest = &rest[taken..];
        first.place = place;
        first.count += taken;
        if !fits(bodies.len(), place) {
            first.count += rest.len();
            first.is_too_long = true;
            return Ok(first);
        }
        first = end_fragment(alloc, found, bodies, first)?;
    }
    Ok(first)
}

/// Adds a piece to an unfinished record, and moves all records that are whole now to those that are ready. If it fails,
/// the ready records are as before.
fn add_all(
    alloc: Global,
    ready: &mut VecDeque<Vec<u8>>,
    found: &mut VecDeque<Vec<u8>>,
    bodies: &mut Vec<u8>,
    from: Unfinished,
    piece: &[u8],
) -> Result<Unfinished, AllocError>
    requires none { found.old.items ≡ [] }
    requires at_place { TakesMore bodies.old.items from.place }
    requires goes { from.is_too_long ≡ false }
    requires room { from.count + length piece.now ≤ 2 ^ 40 }
    ensures ok { IfOk result (λ first. (messages : List (List ℕ))
        × Finds bodies.old.items from piece.now messages bodies.new.items first
        × (messages_of ready.new.items ≡ messages_of ready.old.items ++ messages)) }
    ensures at_place { IfOk result (λ first.
        first.is_too_long ≡ false → TakesMore bodies.new.items first.place) }
    ensures few { IfOk result (λ first. length bodies.new.items ≤ RECORD_LIMIT) }
    ensures none { OnOk result (found.new.items ≡ []) }
    ensures err { OnErr result (ready.new.items ≡ ready.old.items) }
    ensures begins { OnErr result
        (Begins bodies.old.items (first_or (messages_of found.new.items) bodies.new.items)) }
{
    let first = take_all(alloc, found, bodies, from, piece)?;
    make_ready(ready, found)?;
    Ok(first)
}

/// Moves the records that were found behind those that are ready. It takes no memory where none is ready.
fn make_ready(
    ready: &mut VecDeque<Vec<u8>>,
    found: &mut VecDeque<Vec<u8>>,
) -> Result<(), AllocError>
    ensures ok { OnOk result
        (messages_of ready.new.items ≡ messages_of ready.old.items ++ messages_of found.old.items) }
    ensures err { OnErr result (ready.new.items ≡ ready.old.items) }
    ensures found { found.new.items ≡ (if is_ok result then [] else found.old.items) }
{
    if ready.is_empty() {
        mem::swap(ready, found);
        return Ok(());
    }
    ready.append(found)
}

/// Restores the first `len` bytes of the bodies, which may have been moved to a record that was found, and lets what
/// was found go.
fn give_back(found: &mut VecDeque<Vec<u8>>, bodies: &mut Vec<u8>, len: usize)
    ensures bodies { bodies.new.items
        ≡ take len (first_or (messages_of found.old.items) bodies.old.items) }
    ensures found { found.new.items ≡ [] }
{
    if let Some(first) = found.pop_front() {
        *bodies = first;
    }
    bodies.truncate(len);
    found.clear();
}

/// Adds a piece to an unfinished record, and moves all records that are whole now to those that are ready, by a queue
/// for those that are found. If it fails, both the ready records and the bodies are as before.
pub(crate) fn take_piece(
    alloc: Global,
    ready: &mut VecDeque<Vec<u8>>,
    found: &mut VecDeque<Vec<u8>>,
    bodies: &mut Vec<u8>,
    from: Unfinished,
    piece: &[u8],
) -> Result<Unfinished, AllocError>
    requires none { found.old.items ≡ [] }
    requires at_place { TakesMore bodies.old.items from.place }
    requires goes { from.is_too_long ≡ false }
    requires room { from.count + length piece.now ≤ 2 ^ 40 }
    ensures ok { IfOk result (λ first. (messages : List (List ℕ))
        × Finds bodies.old.items from piece.now messages bodies.new.items first
        × (messages_of ready.new.items ≡ messages_of ready.old.items ++ messages)) }
    ensures at_place { IfOk result (λ first.
        first.is_too_long ≡ false → TakesMore bodies.new.items first.place) }
    ensures few { IfOk result (λ first. length bodies.new.items ≤ RECORD_LIMIT) }
    ensures err { OnErr result
        ((ready.new.items ≡ ready.old.items) × (bodies.new.items ≡ bodies.old.items)) }
    ensures none { found.new.items ≡ [] }
{
    let len = bodies.len();
    match add_all(alloc, ready, found, bodies, from, piece) {
        Ok(first) => Ok(first),
        Err(error) => {
            give_back(found, bodies, len);
            Err(error)
        }
    }
}
