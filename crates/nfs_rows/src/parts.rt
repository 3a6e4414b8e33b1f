//! Searches and removals that borrow only some of a table's fields.

ghost use Rattle.std.specs.Prelude.{◌≡◌, ◌≤◌, ℕ, Bool, false, true, List, None, Some, find, length};
ghost use Rattle.std.specs.List.{AllByRecursion};
ghost use Rattle.slab.specs.Slab.{Updates};
ghost use Rattle.indexmap.specs.IndexMap.{spare};
ghost use Rattle.nfs_rows.specs.Rows.{AnswersAs, is_named, is_numbered, is_of_client, pair_in, pair_seen, value_in, without};
ghost use Rattle.nfs_rows.specs.Places.{AreKept, HasRoom, HasRow, HasRowAt, IsIndexed, has_row, kept, key_at, marked, number_at, rows_at};
ghost use Rattle.nfs_rows.specs.declared.place.Place.{Place};

use crate::place::{Place, mark};
use indexmap::IndexMap;
use slab::Slab;

/// Takes the row out that is at this place, and leaves a mark.
pub fn take<T>(
    slab: &mut Slab<T>,
    places: &mut Vec<Place>,
    index: &mut IndexMap<u64, u64>,
    at: usize,
) -> T
    requires kept { AreKept slab.old places.old.items index.old true }
    requires there { HasRowAt at places.old.items }
    ensures kept { (clashed : Bool) → AreKept slab.old places.old.items index.old clashed
        → AreKept slab.new places.new.items index.new clashed }
    ensures places { places.new.items ≡ marked at places.old.items }
    ensures rows { rows_at slab.new places.new.items
        ≡ without (is_numbered (number_at at places.old.items))
        (rows_at slab.old places.old.items) }
    ensures value { value_in (find (is_numbered (number_at at places.old.items))
        (rows_at slab.old places.old.items)) ≡ Some result }
    ensures updates { Updates slab.old slab.new (key_at at places.old.items) None }
    ensures room { (room : ℕ) → HasRoom slab.old places.old index.old room
        → HasRoom slab.new places.new index.new room }
{
    let place = mark(places, at);
    index.swap_remove(&place.hash);
    slab.remove(place.key)
}

/// Whether a row of the client that passes the test is at this place.
pub fn has_row_of<T, F: Fn(&T) -> bool>(slab: &Slab<T>, place: Place, client: u32, test: &F) -> bool
    requires { F.IsAlwaysCallable test.now }
    ensures there { result ≡ true → place.gone ≡ false }
    ensures passes { (p : T → Bool) → AnswersAs F.Fn test.now p
        → result ≡ has_row (is_of_client client p) slab.now place }
{
    if place.gone || place.client != client {
        return false;
    }
    match slab.get(place.key) {
        Some(value) => test(value),
        None => false,
    }
}

/// Whether look-ups by hash have to look at each row, where it was so before and there are so many rows. Without rows
/// the index begins anew.
pub fn stay_clashed(index: &mut IndexMap<u64, u64>, clashed: bool, rows: usize) -> bool
    ensures indexed { (places : List Place) → length places ≡ rows
        → (clashed ≡ false → IsIndexed index.old places)
        → result ≡ false → IsIndexed index.new places }
    ensures stays { clashed ≡ false → result ≡ false }
    ensures anew { rows ≡ 0 → result ≡ false }
    ensures spare { spare index.old ≤ spare index.new }
{
    if clashed && rows == 0 {
        index.clear();
        return false;
    }
    clashed
}

/// The first row at these places that has the hash and passes the test, with its number.
pub fn named_among<'a, T, F: Fn(&T) -> bool>(
    slab: &'a Slab<T>,
    places: &[Place],
    hash: u64,
    test: F,
) -> Option<(u64, &'a T)>
    requires callable { F.IsAlwaysCallable test }
    requires there { AllByRecursion (HasRow slab.now) (kept places.now) }
    ensures { (p : T → Bool) → AnswersAs F.Fn test p
        → pair_seen result ≡ pair_in (find (is_named hash p) (rows_at slab.now places.now)) }
{
    for place in places {
        if place.gone || place.hash != hash {
            continue;
        }
        if let Some(value) = slab.get(place.key) {
            if test(value) {
                return Some((place.number, value));
            }
        }
    }
    None
}
