// The neighbours of a list in the order of `for_each_neighbour` of local_search/soft.rs, one by one: the first, and the one after a given one; and each as a
// layout of the list.
//
// A place is a neighbour by its numbers. Each contract says which neighbours are left from its answer on, so that a loop over places goes through the whole
// enumeration of specs/Neighbours.antt.

#![tactic(auto)]

pub mod reconnect;
pub mod relocate;
pub mod reverse;

ghost use Rattle.std.specs.Prelude.{◌≡◌, ◌≤◌, length};
ghost use Rattle.neighbours.specs.Neighbours as of;
ghost use Rattle.neighbours.specs.Neighbours.{neighbours, made};
ghost use Rattle.neighbours.specs.Places as by_numbers;
ghost use Rattle.neighbours.specs.Places.{Inside, InsideAny, rest, Follows, Lays, meant, placed};

use layouts::{Layout, rearrange};

// A neighbourhood that a search moves in.
pub trait Neighbourhood {
    // A neighbour, by its numbers.
    type Place: Copy;

    // Which one the definition means, and which place.
    ghost which: { of.Neighbourhood };

    ghost place: { Self.Place → by_numbers.Place };

    // The first neighbour of a list of n.
    fn first(n: usize) -> Option<Self::Place>
        requires { n ≤ 63 }
        ensures { (rest n (placed place result) ≡ neighbours which n) × InsideAny n (placed place result) };

    // The neighbour after the one at a place.
    fn after(n: usize, at: Self::Place) -> Option<Self::Place>
        requires { (n ≤ 63) × Inside n (place at) }
        ensures { Follows n (place at) (placed place result) };

    // The neighbour at a place, as a layout of a list of n.
    fn layout(n: usize, at: Self::Place) -> Layout
        requires { (n ≤ 63) × Inside n (place at) }
        ensures { Lays n (place at) result };
}

// Makes the list the neighbour at a place.
pub fn make<N: Neighbourhood>(list: &mut [u16], buffer: &mut [u16], at: N::Place)
    requires { (length list.old ≤ 63) × (length list.old ≤ length buffer.old) × Inside (length list.old) (N.place at) }
    ensures { list.new ≡ made list.old (meant (N.place at)) }
{
    let p = N::layout(list.len(), at);
    rearrange(list, buffer, p);
}
