// The next move of 2-opt on one list (local_search/two_opt.rs, where no window is soft): a run of two or more visits is reversed where that gains and passes.
//
// Places are the pairs first < last, in the order of the Rust's two loops, with one candidate each. The next move is the first ahead in this sweep or,
// where there is none, the first of a new sweep. Each search equals the definition's `first_move`.

#![tactic(auto)]

ghost use Rattle.std.specs.Prelude.{length};
ghost use Rattle.labels.specs.Columns.{Visits};
ghost use Rattle.labels.specs.Lent.{lent};
ghost use Rattle.reversal_places.specs.Places.{Worked};
ghost use Rattle.reversals.specs.Reversals.{InSweep, Searched, from, first_turn, next_turn};

use heads::at_depot;
use labels::columns::Columns;
use layouts::head_up_to;
use reversal_places::{Place, Terms, place_after, try_reversal};

// Makes the first move from a place of the sweep on.
fn first_move(terms: Terms, columns: &Columns, list: &mut [u16], start: Place) -> Option<Place>
    requires worked { Worked (lent columns.now) terms × Visits columns.now.locations list.old }
    requires in_sweep { InSweep (length list.old) start }
    ensures { Searched (first_turn (lent columns.now) terms list.old (from (length list.old) start)) list.old list.new result }
{
    let n = list.len();
    let limits = terms.limits;
    let rest = limits.rest;
    // With a break to take no head is shared, and none is driven.
    let shares = terms.needed && rest.is_none();
    let mut head = at_depot(terms.depot);
    let mut place = start;
    while place.last < n {
        head = head_up_to(shares, columns, rest, terms.depot, list, head, place.first);
        if try_reversal(terms, columns, list, head, place) {
            return Some(place);
        }
        place = place_after(n, place);
    }
    None
}

// Makes the next move: the first ahead in this sweep or, where there is none, the first of a new sweep.
pub fn next_move(terms: Terms, columns: &Columns, list: &mut [u16], start: Place) -> Option<Place>
    requires worked { Worked (lent columns.now) terms × Visits columns.now.locations list.old }
    requires in_sweep { InSweep (length list.old) start }
    ensures { Searched (next_turn (lent columns.now) terms
        (record { now = list.old; ahead = from (length list.old) start })) list.old list.new result }
{
    let found = first_move(terms, columns, list, start);
    if let Some(place) = found {
        return Some(place);
    }
    first_move(terms, columns, list, Place { first: 0, last: 1 })
}
