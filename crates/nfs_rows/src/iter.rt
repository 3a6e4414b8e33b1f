//! Iterates over rows in the order in which they came.

ghost use Rattle.std.specs.Iterator.{YieldsFirstBy, item_count};

use crate::place::Place;
use slab::Slab;
use std::marker::Model;

/// The values of rows with their numbers, in the order in which they came, seen as the list of those that are left.
#[derive(Drop)]
pub struct Iter<'a, T> {
    pub(crate) slab: &'a Slab<T>,
    pub(crate) places: &'a [Place],
}

impl<'a, T> Model for Iter<'a, T> {
    ghost use Rattle.std.specs.Prelude.{ℕ, List, map};
    ghost use Rattle.std.specs.List.{AllByRecursion};

    ghost Value = { List (ℕ × T) };

    ghost use Rattle.nfs_rows.specs.Rows.{pair_of};
    ghost use Rattle.nfs_rows.specs.Places.{HasRow, kept, rows_at};

    ghost view = { λ it. map pair_of (rows_at it.slab.now it.places.now) };

    ghost invariant = { λ it. AllByRecursion (HasRow it.slab.now) (kept it.places.now) };
}

impl<'a, T> Iterator for Iter<'a, T> {
    type Item = (u64, &'a T);

    ghost next_gives = { YieldsFirstBy (λ item. (item.0, item.1.now)) (λ rest. rest) };

    ghost remaining = { item_count (λ rest. rest) };

    fn next(&mut self) -> Option<(u64, &'a T)> {
        while let Some((place, rest)) = self.places.split_first() {
            self.places = rest;
            if !place.gone {
                return Some((place.number, &self.slab[place.key]));
            }
        }
        None
    }
}
