// One turn of a run of cross-depot (the body of the loop of `cross_depot_improve` of local_search/cross_depot.rs): the best move searched, and made in the
// tables where one gains and the limit leaves room.

#![tactic(auto)]

ghost use Rattle.std.specs.Prelude.{◌≡◌, true, ◌≤◌, length, take};
ghost use Rattle.numbers.specs.Floor.{gain_floor};
ghost use Rattle.day.specs.Matrix.{scale_of};
ghost use Rattle.cross_choices.specs.Scan.{is_found};
ghost use Rattle.cross_changes.specs.Tables.{Makes};
ghost use Rattle.cross_deltas.specs.Deltas.{KeptIn};
ghost use Rattle.cross_steps.specs.Tables.{MadeIn, MadeFound, Live, plan_in, Turned};
ghost use Rattle.labels.specs.Lent.{lent};

use cross_changes::make_move;
use cross_choices::Choice;
use cross_deltas::KeptDeltas;
use cross_moves::plan::Plan;
use cross_pairs::Room;
use cross_search::best_move;
use cross_search::terms::Terms;

// What a turn came to.
#[derive(Clone, Copy)]
pub enum Turn {
    // No move gains.
    NoGain,
    // One does, and the limit leaves no room for it.
    NoRoom,
    // It was made, and so many lists are left.
    Left(usize),
}

// Makes the best move in the first n lists of the tables, and returns how many of them are left.
fn make_best(
    visits: &mut [u16],
    lengths: &mut [u16],
    ids: &mut [u32],
    costs: &mut [f64],
    n: usize,
    best: Choice,
) -> usize
    requires makes { Makes visits.old (take n lengths.old) best.chosen × (n ≤ length lengths.old) }
    requires ids_len { (length ids.old ≡ length lengths.old) × (length costs.old ≡ length lengths.old) }
    ensures { MadeIn n best.chosen best.cost1 best.cost2
        visits.old lengths.old ids.old costs.old
        visits.new lengths.new ids.new costs.new result }
{
    make_move(
        visits,
        &mut lengths[0..n],
        &mut ids[0..n],
        &mut costs[0..n],
        best.chosen,
        best.cost1,
        best.cost2,
    )
}

// Makes the best move in the first n lists of the tables, if there is one and the limit leaves room.
fn make_found(
    visits: &mut [u16],
    lengths: &mut [u16],
    ids: &mut [u32],
    costs: &mut [f64],
    n: usize,
    best: Choice,
    has_room: bool,
    deltas: &mut KeptDeltas,
) -> Turn
    requires makes { (is_found best ≡ true → Makes visits.old (take n lengths.old) best.chosen) × (n ≤ length lengths.old) }
    requires ids_len { (length ids.old ≡ length lengths.old) × (length costs.old ≡ length lengths.old) }
    ensures { MadeFound n
        visits.old lengths.old ids.old costs.old
        visits.new lengths.new ids.new costs.new deltas.old deltas.new has_room best result }
{
    if best.found != 1 {
        return Turn::NoGain;
    }
    if !has_room {
        return Turn::NoRoom;
    }
    let left = make_best(visits, lengths, ids, costs, n, best);
    deltas.move_on(n, left, best.chosen.one, best.chosen.other);
    Turn::Left(left)
}

// A turn with so many lists left: searches the best move of them, and makes it where the limit leaves room.
pub fn take_turn(
    terms: &Terms,
    visits: &mut [u16],
    lengths: &mut [u16],
    ids: &mut [u32],
    costs: &mut [f64],
    n: usize,
    has_room: bool,
    deltas: &mut KeptDeltas,
    room: &mut Room,
) -> Turn
    requires floor { terms.now.floor ≡ gain_floor (scale_of terms.now.columns.now.distances.now) }
    requires live { Live terms.now.columns.now.locations visits.old lengths.old ids.old costs.old n }
    requires kept { KeptIn (lent terms.now.columns.now) terms.now.demand.now terms.now.fleet.now
        (plan_in n visits.old lengths.old ids.old costs.old) terms.now.floor 0 deltas.old }
    ensures { Turned (lent terms.now.columns.now) terms.now.demand.now terms.now.fleet.now terms.now.floor terms.now.columns.now.locations
        n visits.old lengths.old ids.old costs.old
        visits.new lengths.new ids.new costs.new deltas.new has_room result }
{
    let plan = Plan {
        visits: &visits[..],
        lengths: &lengths[0..n],
        ids: &ids[0..n],
        costs: &costs[0..n],
    };
    let best = best_move(terms, &plan, deltas, room);
    make_found(visits, lengths, ids, costs, n, best, has_room, deltas)
}
