// Reverse a stretch of the list.
ghost use Rattle.std.specs.Prelude.{◌≡◌, map, ◌≤◌};
ghost use Rattle.descent.proofs.Loops.{rows_from};
ghost use Rattle.neighbours.specs.Neighbours as of;
ghost use Rattle.neighbours.specs.Neighbours.{reversal};
ghost use Rattle.neighbours.specs.Places.{InsideAny, rest, placed};
ghost use Rattle.neighbours.specs.Numbers.{turned};

use crate::Neighbourhood;
use layouts::{Layout, reversal};

#[derive(Clone, Copy)]
pub struct Reverse;

// The visits from the first to the last turned round.
#[derive(Clone, Copy)]
pub struct Reversal {
    pub first: usize,
    pub last: usize,
}

// The first reversal whose stretch starts at i or behind it.
fn first_reversal(n: usize, i: usize) -> Option<Reversal>
    requires { (n ≤ 63) × (i ≤ 63) }
    ensures { (rest n (placed turned result) ≡ map reversal (rows_from n i)) × InsideAny n (placed turned result) }
{
    if i + 1 < n {
        return Some(Reversal {
            first: i,
            last: i + 1,
        });
    }
    None
}

impl Neighbourhood for Reverse {
    type Place = Reversal;

    ghost which = { of.Reverse };

    ghost place = { turned };

    fn first(n: usize) -> Option<Reversal> {
        first_reversal(n, 0)
    }

    fn after(n: usize, at: Reversal) -> Option<Reversal> {
        let Reversal { first, last } = at;
        if last + 1 < n {
            return Some(Reversal {
                first,
                last: last + 1,
            });
        }
        first_reversal(n, first + 1)
    }

    fn layout(n: usize, at: Reversal) -> Layout {
        reversal(at.first, at.last + 1)
    }
}
