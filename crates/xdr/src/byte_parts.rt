//! Bytes in several parts of memory, so that a READ over pages copies nothing.

ghost use Rattle.std.specs.Prelude.{◌≡◌, ◌+◌, ◌++◌, ◌<◌, ◌≤◌, ◌^◌, [], IfNone, IfOk, IfSome, IsOk, List, MatchBool, OnOk, drop, length, take, vec_capacity, vec_len, ℕ};
ghost use Rattle.std.specs.List.{concat};
ghost use Rattle.std.specs.Str.{bytes_eq};
ghost use Rattle.std.specs.Arc.{arc_slice_items};
ghost use Rattle.std.specs.Option.{option_map_or};
ghost use Rattle.xdr.specs.Layout.{NO_LIMIT};
ghost use Rattle.xdr.specs.Parts.{StandAt};
ghost use Rattle.xdr.specs.Writing.{Writes, written_opaque};

use crate::basic::{padding_of, write_u32};
use crate::{SharedBytes, WireError};
use std::alloc::{AllocError, Global};
use std::marker::Model;
use std::sync::ArcSlice;

/// Owned bytes (opaque<>) in parts, such as parts of a file's pages, which share the memory of these. Clones share the
/// list of the parts, too, so that a clone takes no memory. Contracts see the bytes, in whichever parts they lie.
#[derive(Drop)]
pub struct ByteParts {
    len: usize,
    first: SharedBytes,
    // The parts behind the first. Without them there is no list, which would take memory.
    rest: Option<ArcSlice<SharedBytes>>,
}

impl Model for ByteParts {
    ghost use Rattle.std.specs.Prelude.{◌≡◌, List, [], ℕ, length};
    ghost use Rattle.std.specs.Arc.{arc_slice_items};
    ghost use Rattle.std.specs.Option.{option_map_or};
    ghost use Rattle.xdr.specs.Parts.{joined};

    ghost Value = { List ℕ };

    ghost view = { λ b. joined b.first (option_map_or arc_slice_items b.rest []) };

    ghost invariant = { λ b. b.len
        ≡ length (joined b.first (option_map_or arc_slice_items b.rest [])) };
}

impl ByteParts {
    /// The bytes of these parts, which have so many. Only a list of more than one part takes memory.
    pub fn new(
        len: usize,
        first: SharedBytes,
        rest: Vec<SharedBytes>,
    ) -> Result<ByteParts, AllocError>
        requires { len ≡ length (first ++ concat rest.items) }
        ensures { IfOk result (λ b. b ≡ first ++ concat rest.items) }
    {
        Ok(ByteParts {
            len,
            first,
            rest: list_of(rest)?,
        })
    }

    /// The bytes of a single part, taking no memory.
    pub fn of_one(part: SharedBytes) -> ByteParts
        ensures { result ≡ part }
    {
        ByteParts {
            len: part.as_slice().len(),
            first: part,
            rest: None,
        }
    }

    /// A copy of these bytes, in a single part.
    pub fn copy_of(alloc: Global, items: &[u8]) -> Result<ByteParts, AllocError>
        ensures { IfOk result (λ b. b ≡ items.now) }
    {
        Ok(ByteParts::of_one(SharedBytes::copy_of(alloc, items)?))
    }

    /// How many bytes there are.
    pub fn len(&self) -> usize
        ensures { result ≡ length self.now }
    {
        self.len
    }

    /// Writes the length, the bytes, and zeros up to a multiple of 4 at the end. TooLong above `NO_LIMIT` bytes.
    #[tactic(auto, unfolding(crate::specs::Writing::written_opaque, crate::specs::Writing::written_number))]
    pub(crate) fn write_to(&self, out: &mut Vec<u8>) -> Result<(), WireError>
        ensures { Writes out.old out.new result (written_opaque self.now)
            (length self.now ≤ NO_LIMIT) }
    {
        let bytes = self.len();
        let Ok(len) = u32::try_from(bytes) else {
            return Err(WireError::TooLong);
        };
        let padding = padding_of(bytes);
        out.reserve(4 + bytes + padding)?;
        write_u32(out, len)?;
        self.add_to(out)?;
        out.extend_from_slice(&[0; 4][..padding])?;
        Ok(())
    }

    // Adds the bytes at the end. It fails only if there is no room for all of them.
    fn add_to(&self, out: &mut Vec<u8>) -> Result<(), AllocError>
        ensures items { OnOk result (out.new.items ≡ out.old.items ++ self.now) }
        ensures capacity { vec_capacity out.old ≤ vec_capacity out.new }
        ensures room { vec_len out.old + length self.now ≤ vec_capacity out.old → IsOk result }
    {
        out.extend_from_slice(self.first.as_slice())?;
        add_each(out, items_of(&self.rest))
    }

    // Whether the other has the same bytes, in whichever parts.
    fn is_same(&self, other: &ByteParts) -> bool
        ensures { result ≡ bytes_eq self.now other.now }
    {
        if self.len() != other.len() {
            return false;
        }
        let first = self.first.as_slice();
        if !other.has_at(0, first) {
            return false;
        }
        other.has_each_at(first.len(), items_of(&self.rest))
    }

    // Whether the bytes of all these parts stand in it from this place on.
    fn has_each_at(&self, from: usize, parts: &[SharedBytes]) -> bool
        requires { from + length (concat parts.now) < 2 ^ 64 }
        ensures { MatchBool result (StandAt from (concat parts.now) self.now)
            (¬ StandAt from (concat parts.now) self.now) }
    {
        let mut at = from;
        for part in parts {
            let bytes = part.as_slice();
            if !self.has_at(at, bytes) {
                return false;
            }
            at += bytes.len();
        }
        true
    }

    // Whether these bytes stand in it from this place on.
    fn has_at(&self, from: usize, bytes: &[u8]) -> bool
        ensures { MatchBool result (StandAt from bytes.now self.now)
            (¬ StandAt from bytes.now self.now) }
    {
        let first = self.first.as_slice();
        match left_after(first, from, bytes) {
            Some(left) => have_at(items_of(&self.rest), from.saturating_sub(first.len()), left),
            None => false,
        }
    }
}

impl PartialEq for ByteParts {
    ghost use Rattle.std.specs.Str.{bytes_eq};
    ghost use Rattle.std.specs.Cmp.Rules.{comparing};
    ghost use Rattle.std.proofs.Common.{rules};

    ghost eq = { bytes_eq };

    ghost laws = { Prim.search (comparing, rules) };

    fn eq(&self, other: &ByteParts) -> bool {
        self.is_same(other)
    }
}

impl Clone for ByteParts {
    ghost is_clone = { λ x y. y ≡ x };

    fn clone(&self) -> Result<ByteParts, AllocError> {
        Ok(ByteParts {
            len: self.len,
            first: self.first.clone()?,
            rest: shared(&self.rest)?,
        })
    }
}

// The list of these parts, if there are any.
fn list_of(parts: Vec<SharedBytes>) -> Result<Option<ArcSlice<SharedBytes>>, AllocError>
    ensures { IfOk result (λ list. option_map_or arc_slice_items list [] ≡ parts.items) }
{
    if parts.is_empty() {
        return Ok(None);
    }
    Ok(Some(ArcSlice::from_vec(parts)?))
}

// The parts in the list, if there is one.
fn items_of(list: &Option<ArcSlice<SharedBytes>>) -> &[SharedBytes]
    ensures { result.now ≡ option_map_or arc_slice_items list.now [] }
{
    match list {
        Some(parts) => parts.as_slice(),
        None => &[],
    }
}

// Another owner of the list, if there is one.
fn shared(list: &Option<ArcSlice<SharedBytes>>) -> Result<Option<ArcSlice<SharedBytes>>, AllocError>
    ensures { IfOk result (λ copy. option_map_or arc_slice_items copy []
        ≡ option_map_or arc_slice_items list.now []) }
{
    match list {
        Some(parts) => Ok(Some(parts.clone()?)),
        None => Ok(None),
    }
}

// Adds the bytes of these parts at the end. It takes no memory if there is room for all.
fn add_each(out: &mut Vec<u8>, parts: &[SharedBytes]) -> Result<(), AllocError>
    ensures items { OnOk result (out.new.items ≡ out.old.items ++ concat parts.now) }
    ensures capacity { vec_capacity out.old ≤ vec_capacity out.new }
    ensures room { vec_len out.old + length (concat parts.now) ≤ vec_capacity out.old
        → IsOk result }
{
    for part in parts {
        out.extend_from_slice(part.as_slice())?;
    }
    Ok(())
}

// Whether these bytes stand in the parts from this place on.
fn have_at(parts: &[SharedBytes], from: usize, bytes: &[u8]) -> bool
    ensures { MatchBool result (StandAt from bytes.now (concat parts.now))
        (¬ StandAt from bytes.now (concat parts.now)) }
{
    let mut before = from;
    let mut left = bytes;
    for part in parts {
        let part = part.as_slice();
        match left_after(part, before, left) {
            Some(rest) => left = rest,
            None => return false,
        }
        before = before.saturating_sub(part.len());
    }
    left.is_empty()
}

// Of these bytes, those that the part hasn't got any more, if it has the first ones behind so many others.
fn left_after<'a>(part: &[u8], before: usize, bytes: &'a [u8]) -> Option<&'a [u8]>
    ensures left { IfSome result (λ left.
        bytes.now ≡ take (length bytes.now) (drop before part.now) ++ left.now) }
    ensures none { IfNone result ((left : List ℕ)
        → ¬ (bytes.now ≡ take (length bytes.now) (drop before part.now) ++ left)) }
{
    let (_, rest) = part.split_at(before.min(part.len()));
    let (here, _) = rest.split_at(bytes.len().min(rest.len()));
    let (first, left) = bytes.split_at(here.len());
    if first == here { Some(left) } else { None }
}
