// The moves of a run of cross-depot (the loop of `cross_depot_improve` of local_search/cross_depot.rs): turn after turn, until no move gains or the limit is
// used up.

#![tactic(auto)]

ghost use Rattle.std.specs.Prelude.{◌≡◌, length};
ghost use Rattle.numbers.specs.Floor.{gain_floor};
ghost use Rattle.day.specs.Matrix.{scale_of};
ghost use Rattle.edits.specs.Total.{SameVisits};
ghost use Rattle.cross_moves.specs.CrossDepot.{run_of, ran_of, plan_of};
ghost use Rattle.loads.specs.Loads.{Held};
ghost use Rattle.cross_runs.specs.Tables.{Handed, crossed_of};
ghost use Rattle.labels.specs.Lent.{lent};

use cross_deltas::KeptDeltas;
use cross_pairs::Room;
use cross_search::terms::Terms;
use cross_steps::{Turn, take_turn};
use engine::Ended;

// How a run ended, and how many lists remain.
#[derive(Clone, Copy)]
pub struct Crossed {
    pub ended: Ended,
    pub lists: usize,
}

// How a run ended, with so many lists left.
pub fn ended_with(ended: Ended, lists: usize) -> Crossed
    ensures { result ≡ record { ended = ended; lists = lists } }
{
    Crossed { ended, lists }
}

// Makes move after move until none is left or the limit is used up. The first lists of the tables, so many as are left, are the plan's.
pub fn descend(
    terms: &Terms,
    visits: &mut [u16],
    lengths: &mut [u16],
    ids: &mut [u32],
    costs: &mut [f64],
    limit: u32,
    room: &mut Room,
) -> Crossed
    requires floor { terms.now.floor ≡ gain_floor (scale_of terms.now.columns.now.distances.now) }
    requires held { Held terms.now.columns.now.locations visits.old lengths.old
        × (length ids.old ≡ length lengths.old) × (length costs.old ≡ length lengths.old) }
    ensures { let ran = ran_of (run_of (lent terms.now.columns.now) terms.now.demand.now terms.now.fleet.now limit
        (plan_of visits.old lengths.old ids.old costs.old))
        in (result ≡ crossed_of ran)
        × Handed ran.lists ran.ids (length lengths.old) visits.new lengths.new ids.new
        × SameVisits visits.old visits.new }
{
    let mut deltas = KeptDeltas::none();
    let mut left = lengths.len();
    let mut moves = 0;
    loop {
        let turn = take_turn(
            terms,
            visits,
            lengths,
            ids,
            costs,
            left,
            moves < limit,
            &mut deltas,
            room,
        );
        match turn {
            Turn::NoGain => return ended_with(Ended::Settled(moves), left),
            Turn::NoRoom => return ended_with(Ended::Stopped(moves), left),
            Turn::Left(n) => left = n,
        }
        moves += 1;
    }
}
