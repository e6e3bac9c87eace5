// The best place of a list for a visit (relocate.rs, `best_between`: the loop over the places): the visit is offered at each, and what the places cost at
// least is noted. Of equal deltas the first place is taken; the list with the visit in it has to pass.

#![tactic(auto)]

ghost use Rattle.std.specs.Prelude.{◌≡◌, suc, ◌+◌, ◌<◌, ◌≤◌, length, take};
ghost use Rattle.labels.specs.Columns.{leg_in, Visits};
ghost use Rattle.labels.specs.Lent.{lent};
ghost use Rattle.descent.specs.Order.{range};
ghost use Rattle.deltas.specs.Deltas.{insertion_delta};
ghost use Rattle.engine.specs.Engine.{passing};
ghost use Rattle.edits.specs.Edits.{inserted};
ghost use Rattle.insertions.specs.Cache.{least_below};
ghost use Rattle.places.specs.Places.{Prepared, best_among, ruled_out};

use buffers::{append_one, append_stretch};
use day::vehicle::RouteLimits;
use deltas_across::insertion_delta;
use engine::passes;
use insertions::{Least, lesser_of};
use labels::columns::Columns;
use numbers::{infinite, is_finite};
use pairs::Choice;
use relocations::offer::{Offer, better_of};

// What is worked out once before the first move.
#[derive(Clone, Copy)]
pub struct Setup {
    pub depot: usize,
    pub limits: RouteLimits,
    // The boxes a van holds.
    pub capacity: usize,
    // What a list costs that has a visit, as a distance.
    pub fixed: f64,
    // The least gain that counts.
    pub floor: f64,
    // Whether candidates have to be checked.
    pub needed: bool,
    // Whether a visit is passed over where its known least insertion gains nothing.
    pub pruning: bool,
}

// What an offer of a visit to a list leaves: the best so far, and what is known of the two.
#[derive(Clone, Copy)]
pub struct Tried {
    pub best: Choice,
    pub least: Least,
}

// Builds a list with a visit put in at a place, at the front of the buffer.
fn inserted_into(buffer: &mut [u16], list: &[u16], visit: u16, place: usize) -> usize
    requires { (place ≤ length list.now) × (length list.now < length buffer.old) }
    ensures value { result ≡ length list.now + 1 }
    ensures buffer_after { take result buffer.new ≡ inserted list.now visit place }
{
    let head = append_stretch(buffer, 0, list, 0, place);
    let middle = append_one(buffer, head, visit);
    append_stretch(buffer, middle, list, place, list.len())
}

// Whether a list with a visit put in at a place passes. Where no check is needed it is not built.
fn candidate_passes(
    setup: Setup,
    columns: &Columns,
    list: &[u16],
    buffer: &mut [u16],
    visit: u16,
    place: usize,
) -> bool
    requires prepared { Prepared setup (lent columns.now) }
    requires in_bounds { 64 ≤ length buffer.old }
    requires visits { Visits columns.now.locations list.now × (length list.now < 63) × (visit < columns.now.locations) × (place ≤ length list.now) }
    ensures { result ≡ passing setup.needed (lent columns.now) setup.limits setup.depot (inserted list.now visit place) }
{
    if !setup.needed {
        return true;
    }
    let end = inserted_into(buffer, list, visit, place);
    let limits = setup.limits;
    passes(setup.needed, columns, limits, setup.depot, &buffer[0..end])
}

// The best after an offer at every place of a list that has room for it, and the least of what the places cost.
pub fn best_place(
    setup: Setup,
    columns: &Columns,
    list: &[u16],
    buffer: &mut [u16],
    offer: Offer,
    best: Choice,
) -> Tried
    requires prepared { Prepared setup (lent columns.now) }
    requires in_bounds { 64 ≤ length buffer.old }
    requires visits { Visits columns.now.locations list.now × (length list.now < 63) × (offer.visit < columns.now.locations) }
    ensures best_value { result.best
        ≡ best_among (lent columns.now) setup list.now offer (range 0 (suc (length list.now))) best }
    ensures least_value { result.least
        ≡ least_below (insertion_delta (leg_in (lent columns.now)) setup.depot setup.fixed list.now offer.visit) (suc (length list.now)) }
{
    let visit = usize::from(offer.visit);
    // What an empty list costs once it is opened.
    let paid = setup.fixed;
    let mut after = best;
    let mut least = Least {
        figure: infinite(),
        place: 0,
    };
    let matrix = columns.matrix();
    for place in 0..list.len() + 1 {
        let insertion = insertion_delta(&matrix, setup.depot, paid, list, visit, place);
        least = lesser_of(least, insertion, place as u16);
        let passes = || candidate_passes(setup, columns, list, buffer, offer.visit, place);
        after = better_of(offer, insertion, passes, after, place);
    }
    Tried { best: after, least }
}

// Whether no place can gain: even the least insertion, where it is known, leaves no gain that counts. Rounded sums keep the order.
#[tactic(auto, unfolding(crate::specs::Places::ruled_out))]
pub fn is_ruled_out(setup: Setup, removal: f64, known: f64) -> bool
    ensures { result ≡ ruled_out setup.pruning setup.floor removal known }
{
    setup.pruning && is_finite(known) && removal + known >= -setup.floor
}
