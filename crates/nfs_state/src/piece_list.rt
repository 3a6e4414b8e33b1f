//! A list that grows without moving its items, for journals of a million entries.

ghost use Rattle.std.specs.Prelude.{◌≡◌, ◌+◌, ◌*◌, ◌-◌, ◌^◌, ◌<◌, ◌≤◌, [], ◌∷◌, ◌++◌, IsOk, OnOk, drop, length, slice_get, take};
ghost use Rattle.std.specs.Option.{option_copied};
ghost use Rattle.nfs_state.specs.PieceList.{piece_from};

use std::alloc::{AllocError, Global};
use std::cmp::min;
use std::marker::Model;
use std::mem;

/// How many items a piece has.
pub const PIECE_LEN: usize = 4_096;

/// A list in pieces. Each has the memory for all of its items when it is begun, so that where the list grows, no item
/// is moved, and no more is asked for than a piece takes.
#[derive(Drop)]
pub struct PieceList<T> {
    // The pieces that have all of their items.
    full: Vec<Vec<T>>,
    // The items behind them.
    last: Vec<T>,
    len: usize,
}

impl<T> Model for PieceList<T> {
    ghost use Rattle.std.specs.Prelude.{◌≡◌, ◌+◌, ◌-◌, ◌<◌, ◌≤◌, ◌++◌, length, min, vec_capacity, vec_len};
    ghost use Rattle.std.specs.List.{All, flat_map};
    ghost use Rattle.nfs_state.specs.PieceList.{RoomyList};
    ghost use Rattle.nfs_state.specs.declared.piece_list.TheConstants.{PIECE_LEN};

    ghost Value = { RoomyList T };

    ghost view = { λ l. record {
      items = flat_map (λ p. p.items) l.full.items ++ l.last.items;
      room = min (vec_capacity l.last) PIECE_LEN - vec_len l.last;
    } };

    ghost invariant = { λ l. All (λ p. length p.items ≡ PIECE_LEN) l.full.items
        × (length l.last.items ≤ PIECE_LEN)
        × (0 < vec_capacity l.last → PIECE_LEN ≤ vec_capacity l.last)
        × (l.len ≡ length (flat_map (λ p. p.items) l.full.items ++ l.last.items)) };
}

impl<T> PieceList<T> {
    /// A list without items, taking no memory.
    pub fn new(alloc: Global) -> PieceList<T>
        ensures { result.items ≡ [] }
    {
        PieceList {
            full: Vec::new(alloc),
            last: Vec::new(alloc),
            len: 0,
        }
    }

    /// How many items it has.
    pub fn len(&self) -> usize
        ensures { result ≡ length self.now.items }
    {
        self.len
    }

    /// The item with this number, if there is one.
    pub fn get(&self, number: usize) -> Option<&T>
        ensures { option_copied result ≡ slice_get self.now.items number }
    {
        match self.piece(number / PIECE_LEN).get(number % PIECE_LEN) {
            Some(item) => Some(item),
            None => None,
        }
    }

    /// The items from this number on, up to the end of their piece: none only where none is left.
    pub fn piece_from(&self, number: usize) -> &[T]
        ensures { result.now ≡ piece_from number self.now.items }
    {
        match self.piece(number / PIECE_LEN).get(number % PIECE_LEN..) {
            Some(rest) => rest,
            None => &[],
        }
    }

    // The piece with this number.
    fn piece(&self, number: usize) -> &[T]
        ensures { result.now ≡ take PIECE_LEN (drop (number * PIECE_LEN) self.now.items) }
    {
        match self.full.get(number) {
            Some(piece) => piece.as_slice(),
            None if number == self.full.len() => self.last.as_slice(),
            None => &[],
        }
    }

    // How many items it can gain without memory.
    fn room(&self) -> usize
        ensures { result ≡ self.now.room }
    {
        min(self.last.capacity(), PIECE_LEN) - self.last.len()
    }

    /// Makes room for one more item, if there is none. What fails changes nothing.
    pub fn reserve(&mut self) -> Result<(), AllocError>
        ensures same { self.new.items ≡ self.old.items }
        ensures room { OnOk result (0 < self.new.room) }
        ensures grows { self.old.room ≤ self.new.room }
        ensures ready { 0 < self.old.room → IsOk result }
    {
        if self.room() > 0 {
            return Ok(());
        }
        if self.last.len() < PIECE_LEN {
            return self.last.reserve(PIECE_LEN - self.last.len());
        }
        self.full.reserve(1)?;
        let fresh = Vec::with_capacity(*self.last.allocator(), PIECE_LEN)?;
        self.full.push_reserved(mem::replace(&mut self.last, fresh));
        Ok(())
    }

    /// Adds the item at the end, where there has to be room.
    pub fn push_reserved(&mut self, item: T)
        requires below { length self.old.items < 2 ^ 64 - 1 }
        requires room { 0 < self.old.room }
        ensures { self.new.items ≡ self.old.items ++ item ∷ [] }
    {
        self.last.push_reserved(item);
        self.len += 1;
    }
}
