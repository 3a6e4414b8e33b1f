//! A table whose rows are found by number and by name, for opens, lock states, owners and clients.

ghost use Rattle.std.specs.Prelude.{◌≡◌, ◌<◌, ◌≤◌, ◌==◌, ◌+◌, ◌↔◌, [], ◌∷◌, ◌++◌, IsOk, IsTrue, OnErr, OnOk, Bool, filter, find, length, map};
ghost use Rattle.std.specs.Option.{option_copied, option_copied_mut};
ghost use Rattle.std.specs.Borrow.{sem};
ghost use Rattle.nfs_rows.specs.Rows.{AnswersAs, IsAbove, StandInOrder, is_from, is_named, is_numbered, is_of_client, pair_in, pair_of, pair_seen, value_in, without};

use crate::iter::Iter;
use crate::parts::{has_row_of, named_among, stay_clashed, take};
use crate::place::{Place, drop_marks, place_of, places_from};
use indexmap::IndexMap;
use slab::Slab;
use std::alloc::{AllocError, Global};
use std::marker::Model;

/// Rows in the order in which they came. Each has a number above those of the rows before it, the hash of its name, and
/// a client.
#[derive(Drop)]
pub struct Rows<T> {
    slab: Slab<T>,
    // Where the rows are, in the order of their numbers; the last one isn't a mark.
    places: Vec<Place>,
    // The number of the row with a hash, as long as no two rows had one.
    index: IndexMap<u64, u64>,
    // Two rows have had one hash, and there have been rows since.
    clashed: bool,
    // How many additions were promised to take no memory.
    room: usize,
}

impl<T> Model for Rows<T> {
    ghost use Rattle.nfs_rows.specs.Rows.{RoomyRows, code_of_rows};
    ghost use Rattle.nfs_rows.specs.Places.{AreFew, AreKept, EndsKept, HasRoom, rows_at};

    ghost Value = { RoomyRows T };

    ghost coded = { code_of_rows T.code };

    ghost view = { λ r. record {
      rows = rows_at r.slab r.places.items;
      room = r.room;
    } };

    ghost invariant = { λ r. AreKept r.slab r.places.items r.index r.clashed
        × EndsKept r.places.items × AreFew r.slab r.places × HasRoom r.slab r.places r.index r.room };
}

impl<T> Rows<T> {
    ghost use Rattle.nfs_rows.specs.Lends.{lends_value};

    /// No rows, taking no memory.
    pub fn new(alloc: Global) -> Rows<T>
        ensures { result.rows ≡ [] }
    {
        Rows {
            slab: Slab::new(alloc),
            places: Vec::new(alloc),
            index: IndexMap::new(alloc),
            clashed: false,
            room: 0,
        }
    }

    /// How many rows there are.
    pub fn len(&self) -> usize
        ensures len { result ≡ length self.now.rows }
        ensures order { StandInOrder self.now.rows }
    {
        // The places' order comes with them.
        let _places = &self.places;
        self.slab.len()
    }

    /// Whether there are no rows.
    pub fn is_empty(&self) -> bool
        ensures { result ≡ (length self.now.rows == 0) }
    {
        self.slab.is_empty()
    }

    /// Whether the next row takes no memory.
    pub fn has_room(&self) -> bool
        ensures { IsTrue result ↔ (0 < self.now.room) }
    {
        self.room > 0
    }

    /// The row with this number, if there is one.
    pub fn find(&self, number: u64) -> Option<&T>
        ensures { option_copied result ≡ value_in (find (is_numbered number) self.now.rows) }
    {
        let at = place_of(&self.places, number)?;
        self.slab.get(self.places[at].key)
    }

    /// The row with this number for a change, if there is one. Its number, hash and client stay, and so do other rows.
    pub fn find_mut(&mut self, number: u64) -> Option<&mut T>
        ensures* lends { sem 𝓛 (lends_value T.row self.entry number result) }
        ensures value { option_copied_mut result
            ≡ value_in (find (is_numbered number) self.old.rows) }
        ensures order { StandInOrder self.old.rows }
    {
        let at = place_of(&self.places, number)?;
        self.slab.get_mut(self.places[at].key)
    }

    /// The first row that has the hash and passes the test, with its number, if there is one. As long as no two rows
    /// have had one hash, it looks at one row, and else at each.
    pub fn find_named<F: Fn(&T) -> bool>(&self, hash: u64, test: F) -> Option<(u64, &T)>
        requires { F.IsAlwaysCallable test }
        ensures { (p : T → Bool) → AnswersAs F.Fn test p
            → pair_seen result ≡ pair_in (find (is_named hash p) self.now.rows) }
    {
        if self.clashed {
            return named_among(&self.slab, &self.places, hash, test);
        }
        let number = *self.index.get(&hash)?;
        let value = self.find(number)?;
        if test(value) {
            Some((number, value))
        } else {
            None
        }
    }

    /// The values of the rows with their numbers, in the order in which the rows came.
    pub fn iter(&self) -> Iter<'_, T>
        ensures { result ≡ map pair_of self.now.rows }
    {
        Iter {
            slab: &self.slab,
            places: &self.places,
        }
    }

    /// The values of the rows whose numbers aren't below this one, as `iter` gives them. It finds the first of them by
    /// halving.
    pub fn iter_from(&self, number: u64) -> Iter<'_, T>
        ensures { result ≡ map pair_of (filter (is_from number) self.now.rows) }
    {
        Iter {
            slab: &self.slab,
            places: places_from(&self.places, number),
        }
    }

    /// Makes room, so that the next row takes no memory.
    pub fn reserve(&mut self) -> Result<(), AllocError>
        ensures rows { self.new.rows ≡ self.old.rows }
        ensures room { OnOk result (0 < self.new.room) }
        ensures grows { self.old.room ≤ self.new.room }
        ensures ready { 0 < self.old.room → IsOk result }
        ensures err { OnErr result (self.new ≡ self.old) }
    {
        if self.room > 0 {
            return Ok(());
        }
        self.slab.reserve(1)?;
        self.places.reserve(1)?;
        self.index.reserve(1)?;
        self.room = 1;
        Ok(())
    }

    /// Adds a row, whose number has to be above those of all others. It takes no memory.
    pub fn add(&mut self, number: u64, hash: u64, client: u32, value: T)
        requires room { 0 < self.old.room }
        requires newest { IsAbove number self.old.rows }
        ensures rows { self.new.rows ≡ self.old.rows ++ (record {
          number = number;
          hash = hash;
          client = client;
          value = value;
        }) ∷ [] }
        ensures room { self.old.room ≡ self.new.room + 1 }
    {
        self.room -= 1;
        let key = self.slab.insert_reserved(value);
        self.places.push_reserved(Place {
            number,
            hash,
            client,
            key,
            gone: false,
        });
        match self.index.insert(hash, number) {
            Ok(None) => {}
            _ => self.clashed = true,
        }
    }

    /// Removes the row with this number, and answers what it was.
    pub fn remove(&mut self, number: u64) -> Option<T>
        ensures value { result ≡ value_in (find (is_numbered number) self.old.rows) }
        ensures rows { self.new.rows ≡ without (is_numbered number) self.old.rows }
        ensures room { self.new.room ≡ self.old.room }
    {
        let at = place_of(&self.places, number)?;
        let value = take(&mut self.slab, &mut self.places, &mut self.index, at);
        drop_marks(&mut self.places, self.slab.len());
        self.clashed = stay_clashed(&mut self.index, self.clashed, self.slab.len());
        Some(value)
    }

    /// Removes the rows of this client that pass the test. It goes through all places, and looks at no value of another
    /// client's.
    pub fn remove_of_client<F: Fn(&T) -> bool>(&mut self, client: u32, test: F)
    where
        T: Drop,
        requires { F.IsAlwaysCallable test }
        ensures rows { (p : T → Bool) → AnswersAs F.Fn test p
            → self.new.rows ≡ without (is_of_client client p) self.old.rows }
        ensures room { self.new.room ≡ self.old.room }
    {
        for at in 0..self.places.len() {
            let place = self.places[at];
            if has_row_of(&self.slab, place, client, &test) {
                let _value = take(&mut self.slab, &mut self.places, &mut self.index, at);
            }
        }
        drop_marks(&mut self.places, self.slab.len());
        self.clashed = stay_clashed(&mut self.index, self.clashed, self.slab.len());
    }
}
