// Move a stretch of one to three visits elsewhere, in the same direction.
ghost use Rattle.std.specs.Prelude.{◌≡◌, ◌⊎◌, map, ◌+◌, ◌≤◌};
ghost use Rattle.descent.specs.Order.{range, each};
ghost use Rattle.descent.specs.Within.{pieces};
ghost use Rattle.neighbours.specs.Neighbours as of;
ghost use Rattle.neighbours.specs.Neighbours.{relocation, to_the_end};
ghost use Rattle.neighbours.specs.Places.{InsideAny, rest, placed};
ghost use Rattle.neighbours.specs.Numbers.{moved};

use crate::Neighbourhood;
use layouts::{EXCHANGED, Layout};

#[derive(Clone, Copy)]
pub struct Relocate;

// So many visits, from which place on, and before the visit at which place of the original list they go.
#[derive(Clone, Copy)]
pub struct Relocation {
    pub size: usize,
    pub from: usize,
    pub to: usize,
}

// The first relocation of a piece of this size or a greater one. A piece is shorter than the list.
fn first_relocation(n: usize, size: usize) -> Option<Relocation>
    requires { (n ≤ 63) × (1 ≤ size) × (size ≤ 4) }
    ensures { (rest n (placed moved result) ≡ map relocation (each (range size 4) (pieces to_the_end n))) × InsideAny n (placed moved result) }
{
    if size == 4 {
        return None;
    }
    if size < n {
        return Some(Relocation {
            size,
            from: 0,
            to: size + 1,
        });
    }
    None
}

// The place that a piece goes to after `to`: the next one, but past the piece itself.
fn next_to(size: usize, from: usize, to: usize) -> usize
    requires { (size ≤ 3) × (from ≤ 63) × (to ≤ 63) }
    ensures { ((to + 1 ≡ from) × (result ≡ from + size + 1)) ⊎ (((to + 1 ≡ from) → ⊥) × (result ≡ to + 1)) }
{
    if to + 1 == from {
        return from + size + 1;
    }
    to + 1
}

impl Neighbourhood for Relocate {
    type Place = Relocation;

    ghost which = { of.Relocate };

    ghost place = { moved };

    fn first(n: usize) -> Option<Relocation> {
        first_relocation(n, 1)
    }

    fn after(n: usize, at: Relocation) -> Option<Relocation> {
        let size = at.size;
        let from = at.from;
        let to = next_to(size, from, at.to);
        if to <= n {
            return Some(Relocation { size, from, to });
        }
        if from + size < n {
            return Some(Relocation {
                size,
                from: from + 1,
                to: 0,
            });
        }
        first_relocation(n, size + 1)
    }

    // A piece goes before an earlier visit, or before a later one: it changes places with the visits between.
    fn layout(n: usize, at: Relocation) -> Layout {
        if at.to < at.from {
            return Layout {
                b: at.to,
                c: at.from,
                d: at.from + at.size,
                way: EXCHANGED,
            };
        }
        Layout {
            b: at.from,
            c: at.from + at.size,
            d: at.to,
            way: EXCHANGED,
        }
    }
}
