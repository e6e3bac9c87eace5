// The best move over all pairs of lists of different depots (`best_move` of local_search/cross_depot.rs). The least delta of each pair is kept over a run,
// and a pair whose two lists are as they were is searched again only where its delta is below the best so far.

#![tactic(auto)]

pub mod terms; // what stays the same over a run

ghost use Rattle.std.specs.Prelude.{◌≡◌, ◌+◌, ◌*◌, ◌<◌, length};
ghost use Rattle.cross_moves.specs.Plans.{lent_as};
ghost use Rattle.loads.specs.Loads.{Held};
ghost use Rattle.cross_choices.specs.Scan.{nothing, best_of_pair, best_from, best_of};
ghost use Rattle.cross_deltas.specs.Deltas.{noted, least_of, Sunk, KeptIn, SameKnown};
ghost use Rattle.labels.specs.Lent.{lent};

use crate::terms::Terms;
use cross_choices::Choice;
use cross_deltas::{KeptDeltas, better_of, no_choice};
use cross_moves::pair::pair_at;
use cross_moves::plan::Plan;
use cross_pairs::{Room, between_lists};
use lists::list_of;

// The best after every move between lists a and b, if their vans start from different depots.
fn best_of_pair(
    terms: &Terms,
    plan: &Plan,
    a: usize,
    b: usize,
    best: Choice,
    room: &mut Room,
) -> Choice
    requires held { Held terms.now.columns.now.locations plan.now.visits.now plan.now.lengths.now }
    requires a_in_bounds { (a < length plan.now.lengths.now) × (b < length plan.now.lengths.now) }
    ensures { result ≡ best_of_pair (lent terms.now.columns.now) terms.now.demand.now terms.now.fleet.now (lent_as plan.now) a b best }
{
    let pair = pair_at(terms.fleet, plan.ids, plan.costs, a, b);
    if pair.is_same_depot() {
        return best;
    }
    let one = list_of(plan.visits, plan.lengths, a);
    let other = list_of(plan.visits, plan.lengths, b);
    between_lists(terms.columns, terms.demand, &pair, one, other, room, best)
}

// The best after the pair (a, b): it is searched unless its least delta is known and not below the best's.
fn after_pair(
    terms: &Terms,
    plan: &Plan,
    a: usize,
    b: usize,
    best: Choice,
    deltas: &mut KeptDeltas,
    room: &mut Room,
) -> Choice
    requires held { Held terms.now.columns.now.locations plan.now.visits.now plan.now.lengths.now }
    requires a_in_bounds { (a < length plan.now.lengths.now) × (b < length plan.now.lengths.now) }
    requires sunk { Sunk terms.now.floor best }
    requires kept { KeptIn (lent terms.now.columns.now) terms.now.demand.now terms.now.fleet.now (lent_as plan.now) terms.now.floor (16 * a + b) deltas.old }
    ensures value { result ≡ best_of_pair (lent terms.now.columns.now) terms.now.demand.now terms.now.fleet.now (lent_as plan.now) a b best }
    ensures deltas_after { deltas.new ≡ noted deltas.old a b
        (least_of (lent terms.now.columns.now) terms.now.demand.now terms.now.fleet.now (lent_as plan.now) terms.now.floor a b) }
{
    if let Some(least) = deltas.known(a, b)
        && !(least < best.delta)
    {
        return best;
    }
    let fresh = best_of_pair(terms, plan, a, b, no_choice(terms.floor), room);
    deltas.note(a, b, fresh.delta);
    better_of(best, fresh)
}

// The best after every move between list a and another whose van starts from another depot.
fn best_from(
    terms: &Terms,
    plan: &Plan,
    a: usize,
    best: Choice,
    deltas: &mut KeptDeltas,
    room: &mut Room,
) -> Choice
    requires held { Held terms.now.columns.now.locations plan.now.visits.now plan.now.lengths.now }
    requires a_in_bounds { a < length plan.now.lengths.now }
    requires sunk { Sunk terms.now.floor best }
    requires kept { KeptIn (lent terms.now.columns.now) terms.now.demand.now terms.now.fleet.now (lent_as plan.now) terms.now.floor (16 * a) deltas.old }
    ensures value { result ≡ best_from (lent terms.now.columns.now) terms.now.demand.now terms.now.fleet.now (lent_as plan.now) a best }
    ensures kept_2 { KeptIn (lent terms.now.columns.now) terms.now.demand.now terms.now.fleet.now (lent_as plan.now) terms.now.floor (16 * (a + 1)) deltas.new }
    ensures same { SameKnown deltas.new deltas.old }
{
    let mut found = best;
    for b in 0..plan.lengths.len() {
        found = after_pair(terms, plan, a, b, found, deltas, room);
    }
    found
}

// The best of all moves, row by row: an iterator of pairs would ask for what the table has of the pairs before in one invariant more. Afterwards the table
// has the least delta of every pair.
pub fn best_move(terms: &Terms, plan: &Plan, deltas: &mut KeptDeltas, room: &mut Room) -> Choice
    requires held { Held terms.now.columns.now.locations plan.now.visits.now plan.now.lengths.now }
    requires kept { KeptIn (lent terms.now.columns.now) terms.now.demand.now terms.now.fleet.now (lent_as plan.now) terms.now.floor 0 deltas.old }
    ensures value { result ≡ best_of (lent terms.now.columns.now) terms.now.demand.now terms.now.fleet.now (lent_as plan.now) (nothing terms.now.floor) }
    ensures kept_2 { KeptIn (lent terms.now.columns.now) terms.now.demand.now terms.now.fleet.now (lent_as plan.now) terms.now.floor
        (16 * length plan.now.lengths.now) deltas.new }
    ensures same { SameKnown deltas.new deltas.old }
{
    let mut found = no_choice(terms.floor);
    for a in 0..plan.lengths.len() {
        found = best_from(terms, plan, a, found, deltas, room);
    }
    found
}
