// The planner's entries for C and Rust, as a static library (`rt lib` in this folder; include/planner.h declares them). Each is thin: it calls the
// entry of crate `planner`, answers the refusal's number or 0, and writes the values of the answer's case. Where it refuses, it writes nothing.
// C passes table after table: each export takes the columns of the day and of the fleet one by one, and makes a `Day` and a `Fleet` of them.

#![tactic(auto)]

pub mod improve; // 2-opt, Or-opt and 3-opt of a list
pub mod rearrange; // engines over all lists
pub mod depots; // the engine over all lists and a fleet

ghost use Rattle.std.specs.Prelude.{◌≡◌};
ghost use Rattle.day.specs.Day.{day_at};
ghost use Rattle.day.specs.Number.{number_of};
ghost use Rattle.fleet.specs.Fleet.{fleet_at};
ghost use Rattle.refusals.specs.Refusal.{refusal, refusal_of_lists, refusal_of_fleet};
ghost use Rattle.checks.specs.Answer.{table_answer, distance_answer, feasible_answer, eval_answer, schedule_answer};
ghost use Rattle.written.specs.Written.{distance_in, passes_in, eval_passes, eval_in};
ghost use Rattle.written.specs.Written.{found_in, schedule_in, taken_in, position_in, start_in};
ghost use Rattle.written.specs.Written.{scale_in, floor_in, symmetric_in, fixed_in, depots_in};

use day::day::Day;
use day::vehicle::Van;
use fleet::Fleet;
use written::{
    code_of, write_distance, write_evaluated, write_feasible, write_scheduled, write_table,
};

// The number of the first refusal of a call that asks for a list, 0 where there is none.
#[unsafe(no_mangle)]
pub extern "C" fn planner_refusal(
    l: usize,
    flags: &[u8],
    demand: &[i32],
    service: &[f64],
    ready: &[f64],
    due: &[f64],
    penalty: &[f64],
    distances: &[f64],
    times: &[f64],
    van: Van,
    visits: &[u16],
    lengths: &[u16],
    list: usize,
) -> u8
    ensures { result ≡ refusal
        (day_at l flags.entry demand.entry service.entry ready.entry due.entry penalty.entry distances.entry times.entry) van
        visits.now lengths.now list }
{
    let day = Day {
        locations: l,
        flags,
        demand,
        service,
        ready,
        due,
        penalty,
        distances,
        times,
    };
    let refused = planner::refusal::refusal_of(&day, van, visits, lengths, list);
    code_of(refused)
}

// The same of a call that takes all lists and asks for none.
#[unsafe(no_mangle)]
pub extern "C" fn planner_refusal_of_lists(
    l: usize,
    flags: &[u8],
    demand: &[i32],
    service: &[f64],
    ready: &[f64],
    due: &[f64],
    penalty: &[f64],
    distances: &[f64],
    times: &[f64],
    van: Van,
    visits: &[u16],
    lengths: &[u16],
) -> u8
    ensures { result ≡ refusal_of_lists
        (day_at l flags.entry demand.entry service.entry ready.entry due.entry penalty.entry distances.entry times.entry) van
        visits.now lengths.now }
{
    let day = Day {
        locations: l,
        flags,
        demand,
        service,
        ready,
        due,
        penalty,
        distances,
        times,
    };
    let refused = planner::refusal::refusal_of_lists(&day, van, visits, lengths);
    code_of(refused)
}

// The same of a call that takes all lists and a fleet.
#[unsafe(no_mangle)]
pub extern "C" fn planner_refusal_of_fleet(
    l: usize,
    flags: &[u8],
    demand: &[i32],
    service: &[f64],
    ready: &[f64],
    due: &[f64],
    penalty: &[f64],
    distances: &[f64],
    times: &[f64],
    van_ids: &[u32],
    depots: &[usize],
    capacities: &[i32],
    distance_costs: &[f64],
    fixed_costs: &[f64],
    van_flags: &[u8],
    max_distances: &[f64],
    max_durations: &[f64],
    earliest: &[f64],
    latest: &[f64],
    durations: &[f64],
    visits: &[u16],
    lengths: &[u16],
    ids: &[u32],
    prices: &[f64],
) -> u8
    ensures { result ≡ refusal_of_fleet
        (day_at l flags.entry demand.entry service.entry ready.entry due.entry penalty.entry distances.entry times.entry)
        (fleet_at van_ids.entry depots.entry capacities.entry distance_costs.entry fixed_costs.entry van_flags.entry
        max_distances.entry max_durations.entry earliest.entry latest.entry durations.entry) visits.now
        lengths.now ids.now prices.now }
{
    let day = Day {
        locations: l,
        flags,
        demand,
        service,
        ready,
        due,
        penalty,
        distances,
        times,
    };
    let fleet = Fleet {
        ids: van_ids,
        depots,
        capacities,
        distance_costs,
        fixed_costs,
        flags: van_flags,
        max_distances,
        max_durations,
        earliest,
        latest,
        durations,
    };
    let refused = planner::refusal::refusal_of_fleet(&day, &fleet, visits, lengths, ids, prices);
    code_of(refused)
}

// The distance of the list asked for.
#[unsafe(no_mangle)]
pub extern "C" fn planner_route_distance(
    l: usize,
    flags: &[u8],
    demand: &[i32],
    service: &[f64],
    ready: &[f64],
    due: &[f64],
    penalty: &[f64],
    distances: &[f64],
    times: &[f64],
    van: Van,
    visits: &[u16],
    lengths: &[u16],
    list: usize,
    distance: &mut f64,
) -> u8
    ensures { let a = distance_answer
        (day_at l flags.entry demand.entry service.entry ready.entry due.entry penalty.entry distances.entry times.entry) van
        visits.now lengths.now list in
        (result ≡ number_of a) ×
        (distance.new ≡ distance_in a distance.old) }
{
    let day = Day {
        locations: l,
        flags,
        demand,
        service,
        ready,
        due,
        penalty,
        distances,
        times,
    };
    let answer = planner::check::route_distance(&day, van, visits, lengths, list);
    write_distance(answer, distance)
}

// Whether the list asked for passes: 1 or 0.
#[unsafe(no_mangle)]
pub extern "C" fn planner_route_feasible(
    l: usize,
    flags: &[u8],
    demand: &[i32],
    service: &[f64],
    ready: &[f64],
    due: &[f64],
    penalty: &[f64],
    distances: &[f64],
    times: &[f64],
    van: Van,
    visits: &[u16],
    lengths: &[u16],
    list: usize,
    passes: &mut u8,
) -> u8
    ensures { let a = feasible_answer
        (day_at l flags.entry demand.entry service.entry ready.entry due.entry penalty.entry distances.entry times.entry) van
        visits.now lengths.now list in
        (result ≡ number_of a) ×
        (passes.new ≡ passes_in a passes.old) }
{
    let day = Day {
        locations: l,
        flags,
        demand,
        service,
        ready,
        due,
        penalty,
        distances,
        times,
    };
    let answer = planner::check::route_feasible(&day, van, visits, lengths, list);
    write_feasible(answer, passes)
}

// What the list asked for comes to, where it passes.
#[unsafe(no_mangle)]
pub extern "C" fn planner_route_eval(
    l: usize,
    flags: &[u8],
    demand: &[i32],
    service: &[f64],
    ready: &[f64],
    due: &[f64],
    penalty: &[f64],
    distances: &[f64],
    times: &[f64],
    van: Van,
    visits: &[u16],
    lengths: &[u16],
    list: usize,
    passes: &mut u8,
    distance: &mut f64,
    duration: &mut f64,
    lateness: &mut f64,
    lateness_cost: &mut f64,
) -> u8
    ensures { let a = eval_answer
        (day_at l flags.entry demand.entry service.entry ready.entry due.entry penalty.entry distances.entry times.entry) van
        visits.now lengths.now list in
        (result ≡ number_of a) ×
        (passes.new ≡ eval_passes a passes.old) ×
        (distance.new ≡ eval_in (λ e. e.distance) a distance.old) ×
        (duration.new ≡ eval_in (λ e. e.duration) a duration.old) ×
        (lateness.new ≡ eval_in (λ e. e.lateness) a lateness.old) ×
        (lateness_cost.new ≡ eval_in (λ e. e.lateness_cost) a lateness_cost.old) }
{
    let day = Day {
        locations: l,
        flags,
        demand,
        service,
        ready,
        due,
        penalty,
        distances,
        times,
    };
    let answer = planner::check::route_eval(&day, van, visits, lengths, list);
    write_evaluated(answer, passes, distance, duration, lateness, lateness_cost)
}

// The schedule of the list asked for, where it has one.
#[unsafe(no_mangle)]
pub extern "C" fn planner_schedule(
    l: usize,
    flags: &[u8],
    demand: &[i32],
    service: &[f64],
    ready: &[f64],
    due: &[f64],
    penalty: &[f64],
    distances: &[f64],
    times: &[f64],
    van: Van,
    visits: &[u16],
    lengths: &[u16],
    list: usize,
    found: &mut u8,
    distance: &mut f64,
    duration: &mut f64,
    lateness: &mut f64,
    lateness_cost: &mut f64,
    taken: &mut u8,
    position: &mut usize,
    start: &mut f64,
) -> u8
    ensures { let a = schedule_answer
        (day_at l flags.entry demand.entry service.entry ready.entry due.entry penalty.entry distances.entry times.entry) van
        visits.now lengths.now list in
        (result ≡ number_of a) ×
        (found.new ≡ found_in a found.old) ×
        (distance.new ≡ schedule_in (λ s. s.distance) a distance.old) ×
        (duration.new ≡ schedule_in (λ s. s.duration) a duration.old) ×
        (lateness.new ≡ schedule_in (λ s. s.lateness) a lateness.old) ×
        (lateness_cost.new ≡ schedule_in (λ s. s.lateness_cost) a lateness_cost.old) ×
        (taken.new ≡ taken_in a taken.old) ×
        (position.new ≡ position_in a position.old) ×
        (start.new ≡ start_in a start.old) }
{
    let day = Day {
        locations: l,
        flags,
        demand,
        service,
        ready,
        due,
        penalty,
        distances,
        times,
    };
    let answer = planner::check::schedule(&day, van, visits, lengths, list);
    write_scheduled(
        answer,
        found,
        distance,
        duration,
        lateness,
        lateness_cost,
        taken,
        position,
        start,
    )
}

// What the searches work out of the day and the van before the first move.
#[unsafe(no_mangle)]
pub extern "C" fn planner_table(
    l: usize,
    flags: &[u8],
    demand: &[i32],
    service: &[f64],
    ready: &[f64],
    due: &[f64],
    penalty: &[f64],
    distances: &[f64],
    times: &[f64],
    van: Van,
    scale: &mut f64,
    floor: &mut f64,
    symmetric: &mut u8,
    fixed: &mut f64,
    depots: &mut usize,
) -> u8
    ensures { let a = table_answer
        (day_at l flags.entry demand.entry service.entry ready.entry due.entry penalty.entry distances.entry times.entry) van in
        (result ≡ number_of a) ×
        (scale.new ≡ scale_in a scale.old) ×
        (floor.new ≡ floor_in a floor.old) ×
        (symmetric.new ≡ symmetric_in a symmetric.old) ×
        (fixed.new ≡ fixed_in a fixed.old) ×
        (depots.new ≡ depots_in a depots.old) }
{
    let day = Day {
        locations: l,
        flags,
        demand,
        service,
        ready,
        due,
        penalty,
        distances,
        times,
    };
    let answer = planner::table::table_of(&day, van);
    write_table(answer, scale, floor, symmetric, fixed, depots)
}
