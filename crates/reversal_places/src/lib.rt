// One place of 2-opt's sweep over a list (local_search/two_opt.rs, where no window is soft): the place that follows it, and the reversal at it, which is made
// where it gains and the list then passes.

#![tactic(auto)]

ghost use Rattle.std.specs.Prelude.{◌≡◌, cond, ◌<◌, length};
ghost use Rattle.labels.specs.Columns.{Visits};
ghost use Rattle.labels.specs.Lent.{lent};
ghost use Rattle.reversal_places.specs.Places.{Worked, Shared, place_after, turned_passes, gains, turned_at};

use day::vehicle::RouteLimits;
use deltas_within::two_opt_delta;
use edits::reverse;
use heads::Head;
use labels::columns::Columns;
use layouts::{laid_passes, reversal};
use numbers::counts_as_gain;

// The constants of a run: worked out once, before the first move.
#[derive(Clone, Copy)]
pub struct Terms {
    pub depot: usize,
    pub limits: RouteLimits,
    pub floor: f64,
    pub symmetric: bool,
    pub needed: bool,
}

// A place of a sweep: the reversal of the visits from `first` to `last`.
#[derive(Clone, Copy)]
pub struct Place {
    pub first: usize,
    pub last: usize,
}

// The place that follows in a sweep over n visits.
pub fn place_after(n: usize, place: Place) -> Place
    requires { (place.first < place.last) × (place.last < n) }
    ensures { result ≡ place_after n place }
{
    if place.last + 1 < n {
        return Place {
            first: place.first,
            last: place.last + 1,
        };
    }
    Place {
        first: place.first + 1,
        last: place.first + 2,
    }
}

// Reverses the visits of a place where the result passes, and says whether it did. The result shares a head with the list, and is checked before it is made.
fn turn(terms: Terms, columns: &Columns, list: &mut [u16], head: Head, place: Place) -> bool
    requires worked { Worked (lent columns.now) terms × Visits columns.now.locations list.old }
    requires first_lt_last { (place.first < place.last) × (place.last < length list.old) }
    requires shared { Shared (lent columns.now) terms list.old head place.first }
    ensures value { result ≡ turned_passes (lent columns.now) terms list.old place }
    ensures list_after { list.new ≡ cond result (turned_at list.old place) list.old }
{
    let depot = terms.depot;
    let limits = terms.limits; // copied for the few that gain, not at each place
    let first = place.first;
    let end = place.last + 1;
    let needed = terms.needed;
    let turned = reversal(first, end);
    let laid = laid_passes(needed, columns, limits, depot, list, head, turned);
    if laid {
        reverse(list, first, end);
    }
    laid
}

// Reverses the visits of a place where that gains and the result passes, and says whether it did.
pub fn try_reversal(
    terms: Terms,
    columns: &Columns,
    list: &mut [u16],
    head: Head,
    place: Place,
) -> bool
    requires worked { Worked (lent columns.now) terms × Visits columns.now.locations list.old }
    requires first_lt_last { (place.first < place.last) × (place.last < length list.old) }
    requires shared { Shared (lent columns.now) terms list.old head place.first }
    ensures value { result ≡ gains (lent columns.now) terms list.old place }
    ensures list_after { list.new ≡ cond result (turned_at list.old place) list.old }
{
    let depot = terms.depot;
    let first = place.first;
    let last = place.last;
    let delta = two_opt_delta(&columns.matrix(), terms.symmetric, depot, list, first, last);
    let gains = counts_as_gain(delta, terms.floor);
    if !gains {
        return false;
    }
    turn(terms, columns, list, head, place)
}
