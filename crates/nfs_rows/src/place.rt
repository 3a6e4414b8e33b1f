//! Where each row is kept: places in the order of numbers, with marks for removed rows.

ghost use Rattle.std.specs.Prelude.{◌≡◌, ◌≤◌, ◌*◌, false, filter, length, nat_lt, slice_index_or, true, vec_capacity, vec_len};
ghost use Rattle.std.specs.List.Sorted.{IsPartitionPoint};
ghost use Rattle.nfs_rows.specs.Places.{EndsKept, HasRowAt, IsPlaceOf, NumbersRise, is_from, kept, marked};
ghost use Rattle.nfs_rows.specs.declared.place.Place.{Place};

/// Where a row is kept, and what the row is found by.
#[derive(Clone, Copy, Debug)]
pub struct Place {
    pub number: u64,
    pub hash: u64,
    pub client: u32,
    // The key of the row in the slab.
    pub key: usize,
    // The row was removed: this is a mark.
    pub gone: bool,
}

/// Where the row with this number is, if there is one.
pub fn place_of(places: &[Place], number: u64) -> Option<usize>
    requires { NumbersRise places.now }
    ensures { IsPlaceOf number places.now result }
{
    let at = first_from(places, number);
    if at < places.len() && places[at].number == number && !places[at].gone {
        Some(at)
    } else {
        None
    }
}

/// The places whose numbers aren't below this one.
pub fn places_from(places: &[Place], number: u64) -> &[Place]
    requires { NumbersRise places.now }
    ensures { result.now ≡ filter (is_from number) places.now }
{
    &places[first_from(places, number)..]
}

// How many numbers are below this one, by halving.
fn first_from(places: &[Place], number: u64) -> usize
    requires { NumbersRise places.now }
    ensures bound { result ≤ length places.now }
    ensures point { IsPartitionPoint (λ p. nat_lt p.number number ≡ true)
        (λ p. nat_lt p.number number ≡ false) places.now result }
{
    places.partition_point(|place| place.number < number)
}

/// Leaves a mark, and answers what stood in its place.
pub fn mark(places: &mut Vec<Place>, at: usize) -> Place
    requires { HasRowAt at places.old.items }
    ensures marked { places.new.items ≡ marked at places.old.items }
    ensures was { (d : Place) → slice_index_or places.old.items at d ≡ result }
    ensures len { vec_len places.new ≡ vec_len places.old }
    ensures capacity { vec_capacity places.new ≡ vec_capacity places.old }
{
    let place = places[at];
    places[at].gone = true;
    place
}

/// Drops the marks where at least half of the places are marks, and else those at the end.
pub fn drop_marks(places: &mut Vec<Place>, rows: usize)
    requires rise { NumbersRise places.old.items }
    requires rows { rows ≡ length (kept places.old.items) }
    ensures kept { kept places.new.items ≡ kept places.old.items }
    ensures rise { NumbersRise places.new.items }
    ensures ends { EndsKept places.new.items }
    ensures few { vec_len places.new ≤ 2 * rows }
    ensures length { vec_len places.new ≤ vec_len places.old }
    ensures capacity { vec_capacity places.new ≡ vec_capacity places.old }
{
    if places.len() / 2 >= rows {
        places.retain(|place| !place.gone);
        return;
    }
    while let Some(place) = places.last() {
        if !place.gone {
            break;
        }
        places.pop();
    }
}
