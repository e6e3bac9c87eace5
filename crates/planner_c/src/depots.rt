// The entry across depots, which changes all lists in place and the ids of their vans. `settled`, `moves` and `remaining` are written as by the entries of
// rearrange.rt.
ghost use Rattle.std.specs.Prelude.{◌≡◌, take};
ghost use Rattle.day.specs.Day.{day_at};
ghost use Rattle.day.specs.Number.{number_of};
ghost use Rattle.edits.specs.Total.{SameVisits};
ghost use Rattle.lists.specs.Table.{lists};
ghost use Rattle.fleet.specs.Fleet.{fleet_at};
ghost use Rattle.cross_moves.specs.CrossDepot.{Carried};
ghost use Rattle.crossings.specs.CrossDepot.{cross_answer, cross_visits, cross_lengths, cross_ids};
ghost use Rattle.rearrangements.specs.Rearrange.{remaining_in};
ghost use Rattle.written.specs.Written.{over_settled_in, over_moves_in, remaining_written};

use day::day::Day;
use fleet::Fleet;
use written::write_rearranged;

// Relocation, swap and tail exchange between lists, each under the van of its id.
#[unsafe(no_mangle)]
pub extern "C" fn planner_cross_depot_improve(
    l: usize,
    flags: &[u8],
    demand: &[i32],
    service: &[f64],
    ready: &[f64],
    due: &[f64],
    penalty: &[f64],
    distances: &[f64],
    times: &[f64],
    van_ids: &[u32],
    depots: &[usize],
    capacities: &[i32],
    distance_costs: &[f64],
    fixed_costs: &[f64],
    van_flags: &[u8],
    max_distances: &[f64],
    max_durations: &[f64],
    earliest: &[f64],
    latest: &[f64],
    durations: &[f64],
    visits: &mut [u16],
    lengths: &mut [u16],
    ids: &mut [u32],
    prices: &[f64],
    limit: u32,
    settled: &mut u8,
    moves: &mut u32,
    remaining: &mut usize,
) -> u8
    ensures { let d = day_at l flags.entry demand.entry service.entry ready.entry due.entry penalty.entry distances.entry times.entry in
        let fleet = fleet_at van_ids.entry depots.entry capacities.entry distance_costs.entry fixed_costs.entry van_flags.entry
        max_distances.entry max_durations.entry earliest.entry latest.entry durations.entry in
        let visits0 = visits.old in
        let lengths0 = lengths.old in
        let ids0 = ids.old in
        let prices0 = prices.now in
        let visits1 = visits.new in
        let lengths1 = lengths.new in
        let ids1 = ids.new in
        let a = cross_answer d fleet visits0 lengths0 ids0 prices0 limit in
        (result ≡ number_of a)
        × (settled.new ≡ over_settled_in a settled.old)
        × (moves.new ≡ over_moves_in a moves.old)
        × (remaining.new ≡ remaining_written a remaining.old)
        × (visits1 ≡ cross_visits d fleet visits0 lengths0 ids0 prices0 limit)
        × (lengths1 ≡ cross_lengths d fleet visits0 lengths0 ids0 prices0 limit)
        × (ids1 ≡ cross_ids d fleet visits0 lengths0 ids0 prices0 limit)
        × SameVisits visits0 visits1
        × Carried d.demand fleet (lists visits0 lengths0) ids0 (take (remaining_in a) (lists visits1 lengths1)) (take (remaining_in a) ids1) }
{
    let day = Day {
        locations: l,
        flags,
        demand,
        service,
        ready,
        due,
        penalty,
        distances,
        times,
    };
    let fleet = Fleet {
        ids: van_ids,
        depots,
        capacities,
        distance_costs,
        fixed_costs,
        flags: van_flags,
        max_distances,
        max_durations,
        earliest,
        latest,
        durations,
    };
    let answer = planner::depots::cross_depot_improve(
        &day, &fleet, visits, lengths, ids, prices, limit,
    );
    write_rearranged(answer, settled, moves, remaining)
}
