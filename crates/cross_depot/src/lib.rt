// A whole run of cross-depot (`cross_depot_improve` of local_search/cross_depot.rs): visits move between lists whose vans start from different depots. From the
// lent prices on, the greatest gain over relocations, swaps and tail exchanges of every pair of lists, the first found of equals, until none gains or the limit
// is used up; every list is priced with its own van.

#![tactic(auto)]

ghost use Rattle.std.specs.Prelude.{◌≡◌, length};
ghost use Rattle.edits.specs.Total.{SameVisits};
ghost use Rattle.lists.specs.Table.{lists};
ghost use Rattle.fleet.specs.Fleet.{Crewed, Manned};
ghost use Rattle.cross_moves.specs.CrossDepot.{lent_plan, run_of, ran_of, cross_ran, Carried};
ghost use Rattle.loads.specs.Loads.{Held};
ghost use Rattle.cross_choices.specs.Scan.{Asked};
ghost use Rattle.cross_runs.specs.Tables.{Handed, crossed_of};
ghost use Rattle.labels.specs.Lent.{lent};

use cross_pairs::Room;
use cross_runs::{Crossed, descend, ended_with};
use cross_search::terms::Terms;
use cross_starts::start;
use day_scans::matrix::scale;
use engine::Ended;
use fleet::Fleet;
use labels::columns::Columns;
use numbers::gain_floor;

// A run from the lists and prices that are lent, with an entry of `costs` for each list.
fn descend_from(
    columns: &Columns,
    demand: &[i32],
    fleet: &Fleet,
    visits: &mut [u16],
    lengths: &mut [u16],
    ids: &mut [u32],
    prices: &[f64],
    costs: &mut [f64],
    limit: u32,
) -> Crossed
    requires asked { Asked (lent columns.now) demand.now }
    requires manned { Manned columns.now.locations fleet.now }
    requires held { Held columns.now.locations visits.old lengths.old × (length ids.old ≡ length lengths.old) × (length prices.now ≡ length lengths.old) }
    requires costs_len { length costs.old ≡ length lengths.old }
    ensures { let start = lent_plan fleet.now (lists visits.old lengths.old) ids.old prices.now
        in let ran = ran_of (run_of (lent columns.now) demand.now fleet.now limit start)
        in (result ≡ crossed_of ran)
        × Handed ran.lists ran.ids (length lengths.old) visits.new lengths.new ids.new
        × SameVisits visits.old visits.new }
{
    start(fleet, ids, prices, costs);
    let terms = Terms {
        columns,
        demand,
        fleet,
        floor: gain_floor(scale(columns.distances)),
    };
    let mut room = Room::new();
    descend(&terms, visits, lengths, ids, costs, limit, &mut room)
}

// Moves visits between lists of different depots, from the prices that are lent on, by at most `limit` moves; fewer than two lists, or lists without a van,
// stay as they are.
pub fn improve(
    columns: &Columns,
    demand: &[i32],
    fleet: &Fleet,
    visits: &mut [u16],
    lengths: &mut [u16],
    ids: &mut [u32],
    prices: &[f64],
    limit: u32,
) -> Crossed
    requires asked { Asked (lent columns.now) demand.now }
    requires crewed { Crewed columns.now.locations fleet.now }
    requires held { Held columns.now.locations visits.old lengths.old × (length ids.old ≡ length lengths.old) × (length prices.now ≡ length lengths.old) }
    ensures { let start = lists visits.old lengths.old
        in let ran = cross_ran (lent columns.now) demand.now fleet.now limit start ids.old prices.now
        in (result ≡ crossed_of ran)
        × Handed ran.lists ran.ids (length lengths.old) visits.new lengths.new ids.new
        × SameVisits visits.old visits.new
        × Carried demand.now fleet.now start ids.old ran.lists ran.ids }
{
    let n = lengths.len();
    if n < 2 || fleet.ids.len() == 0 {
        return ended_with(Ended::Settled(0), n);
    }
    let mut costs = [0.0; 16];
    descend_from(
        columns,
        demand,
        fleet,
        visits,
        lengths,
        ids,
        prices,
        &mut costs[0..n],
        limit,
    )
}
