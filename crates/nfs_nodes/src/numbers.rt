//! Makes room for one more number. If there is none, it first forgets the numbers of states that are gone.

ghost use Rattle.std.specs.Prelude.{◌≡◌, ◌<◌, ◌≤◌, ℕ, List, IsOk, OnOk, map, nat_eq};
ghost use Rattle.std.specs.List.{list_any};
ghost use Rattle.nfs_nodes.specs.Numbers.{StandFrom, list_of};

use crate::Nodes;
use std::alloc::AllocError;

/// A file with numbered states of a kind. A file may have states of several kinds.
pub trait Numbered<Kind> {
    /// A state of the kind.
    ghost State: { Type 0 };

    /// A state's number.
    ghost number_of: { State → ℕ };

    /// The states of a file.
    ghost states: { Self → List State };

    /// Whether the file has a state with this number.
    fn has_number(&self, number: u32) -> bool
        ensures { result ≡ list_any (λ s. nat_eq (number_of s) number) (states self.now) };
}

/// Makes room for the number of one more state, where there are so many. If there is none, and most of the numbers are
/// of states that there are no more, it forgets these first.
pub fn reserve_number<Kind, F: Numbered<Kind>>(
    files: &[F],
    nodes: &mut Nodes,
    count: usize,
) -> Result<(), AllocError>
    requires stand { StandFrom F.number_of nodes.old 0 (map F.states files.now) }
    ensures stand { StandFrom F.number_of nodes.new 0 (map F.states files.now) }
    ensures room { OnOk result (0 < nodes.new.room) }
    ensures grows { nodes.old.room ≤ nodes.new.room }
    ensures ready { 0 < nodes.old.room → IsOk result }
{
    if nodes.is_full_of_others(count) {
        forget_others(files, nodes);
    }
    nodes.reserve()
}

// Forgets the numbers of states that there are no more.
fn forget_others<Kind, F: Numbered<Kind>>(files: &[F], nodes: &mut Nodes)
    requires stand { StandFrom F.number_of nodes.old 0 (map F.states files.now) }
    ensures stand { StandFrom F.number_of nodes.new 0 (map F.states files.now) }
    ensures grows { nodes.old.room ≤ nodes.new.room }
{
    // The last entry takes the place of one that is removed.
    let len = nodes.len();
    for passed in 0..len {
        forget_other(files, nodes, len - 1 - passed);
    }
}

// Forgets the number at this place, if its node has no state with it.
fn forget_other<Kind, F: Numbered<Kind>>(files: &[F], nodes: &mut Nodes, place: usize)
    requires stand { StandFrom F.number_of nodes.old 0 (map F.states files.now) }
    ensures stand { StandFrom F.number_of nodes.new 0 (map F.states files.now) }
    ensures grows { nodes.old.room ≤ nodes.new.room }
{
    if let Some((number, node)) = nodes.at(place) {
        if has_number_at(files, node, number) {
            return;
        }
        nodes.remove(number, node);
    }
}

// Whether the node has a state with this number.
fn has_number_at<Kind, F: Numbered<Kind>>(files: &[F], node: u32, number: u32) -> bool
    ensures { result ≡ list_any (λ s. nat_eq (F.number_of s) number)
        (list_of node (map F.states files.now)) }
{
    match files.get(node as usize) {
        Some(file) => file.has_number(number),
        None => false,
    }
}
