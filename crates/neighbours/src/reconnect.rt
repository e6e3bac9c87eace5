// Cut the list behind three visits, and reconnect the pieces in every other way.
ghost use Rattle.std.specs.Prelude.{◌≡◌, map, ◌≤◌};
ghost use Rattle.descent.specs.Order.{each};
ghost use Rattle.neighbours.specs.Neighbours as of;
ghost use Rattle.neighbours.specs.Neighbours.{reconnection, ways};
ghost use Rattle.neighbours.specs.Places.{InsideAny, rest, firsts_from, placed};
ghost use Rattle.neighbours.specs.Numbers.{reconnected};

use crate::Neighbourhood;
use layouts::{Layout, nth_way, reconnection};

#[derive(Clone, Copy)]
pub struct Reconnect;

// Cut behind the visits i, j and k, and reconnected in one of the seven ways, 0 to 6.
#[derive(Clone, Copy)]
pub struct Reconnection {
    pub i: usize,
    pub j: usize,
    pub k: usize,
    pub way: usize,
}

// The first reconnection whose first cut is behind the visit i or a later one.
fn first_reconnection(n: usize, i: usize) -> Option<Reconnection>
    requires { (n ≤ 63) × (i ≤ 63) }
    ensures { (rest n (placed reconnected result) ≡ map reconnection (each (firsts_from n i) ways)) × InsideAny n (placed reconnected result) }
{
    if i + 2 < n {
        return Some(Reconnection {
            i,
            j: i + 1,
            k: i + 2,
            way: 0,
        });
    }
    None
}

impl Neighbourhood for Reconnect {
    type Place = Reconnection;

    ghost which = { of.Reconnect };

    ghost place = { reconnected };

    // 3-opt is for lists of four or more.
    fn first(n: usize) -> Option<Reconnection> {
        if n < 4 {
            return None;
        }
        first_reconnection(n, 0)
    }

    fn after(n: usize, at: Reconnection) -> Option<Reconnection> {
        let Reconnection { i, j, k, way } = at;
        if way < 6 {
            return Some(Reconnection {
                i,
                j,
                k,
                way: way + 1,
            });
        }
        if k + 1 < n {
            return Some(Reconnection {
                i,
                j,
                k: k + 1,
                way: 0,
            });
        }
        if j + 2 < n {
            return Some(Reconnection {
                i,
                j: j + 1,
                k: j + 2,
                way: 0,
            });
        }
        first_reconnection(n, i + 1)
    }

    fn layout(n: usize, at: Reconnection) -> Layout {
        let way = nth_way(at.way);
        reconnection(at.i, at.j, at.k, way)
    }
}
