//! Moves runs from the end of one list to another.

ghost use Rattle.std.specs.Prelude.{◌≡◌, ◌≤◌, ◌<◌, ◌+◌, ◌-◌, ◌++◌, drop, reverse, take, vec_capacity, vec_len};
ghost use Rattle.std.specs.List.{cons_option};

use crate::Piece;

/// Takes so many runs from the end of one list, one by one, and puts each at the end of the other.
pub(crate) fn shift(from: &mut Vec<Piece>, to: &mut Vec<Piece>, count: usize)
    requires count { count ≤ vec_len from.old }
    requires room { vec_len to.old + count ≤ vec_capacity to.old }
    ensures from { from.new.items ≡ take (vec_len from.old - count) from.old.items }
    ensures to { to.new.items
        ≡ to.old.items ++ reverse (drop (vec_len from.old - count) from.old.items) }
    ensures capacity { (vec_capacity from.new ≡ vec_capacity from.old)
        × (vec_capacity to.new ≡ vec_capacity to.old) }
{
    for _ in 0..count {
        match from.pop() {
            Some(run) => to.push_reserved(run),
            None => return,
        }
    }
}

/// Puts the run at the end of the list, if there is one.
pub(crate) fn push_some(list: &mut Vec<Piece>, run: Option<Piece>)
    requires room { vec_len list.old < vec_capacity list.old }
    ensures items { reverse list.new.items ≡ cons_option run (reverse list.old.items) }
    ensures few { vec_len list.new ≤ vec_len list.old + 1 }
    ensures capacity { vec_capacity list.new ≡ vec_capacity list.old }
{
    if let Some(run) = run {
        list.push_reserved(run);
    }
}
