// The entries that change one list in place. `settled` is written 1 where no permitted move gains any more, and 0 where the limit was used up.
ghost use Rattle.std.specs.Prelude.{◌≡◌};
ghost use Rattle.day.specs.Day.{day_at};
ghost use Rattle.day.specs.Number.{number_of};
ghost use Rattle.edits.specs.Total.{SameVisits};
ghost use Rattle.lists.specs.Table.{list_of};
ghost use Rattle.descent.specs.Permitted.{two_opt, or_opt, three_opt, n_minus_length};
ghost use Rattle.neighbours.specs.Neighbours.{Reverse, Relocate, Reconnect};
ghost use Rattle.improvements.specs.Improve.{improve_answer, improve_visits, reported};
ghost use Rattle.claims.specs.Demand3.{Claimed};
ghost use Rattle.written.specs.Written.{settled_in, moves_in, end_distance_in};

use day::day::Day;
use day::vehicle::Van;
use written::write_improved;

// 2-opt of the list asked for.
#[unsafe(no_mangle)]
pub extern "C" fn planner_two_opt_improve(
    l: usize,
    flags: &[u8],
    demand: &[i32],
    service: &[f64],
    ready: &[f64],
    due: &[f64],
    penalty: &[f64],
    distances: &[f64],
    times: &[f64],
    van: Van,
    visits: &mut [u16],
    lengths: &[u16],
    list: usize,
    limit: u32,
    settled: &mut u8,
    moves: &mut u32,
    distance: &mut f64,
) -> u8
    ensures { let d = day_at l flags.entry demand.entry service.entry ready.entry due.entry penalty.entry distances.entry times.entry in
        let before = visits.old in
        let after = visits.new in
        let kept = lengths.now in
        let a = improve_answer Reverse d van before kept list limit in
        (result ≡ number_of a)
        × (settled.new ≡ settled_in a settled.old)
        × (moves.new ≡ moves_in a moves.old)
        × (distance.new ≡ end_distance_in a distance.old)
        × (after ≡ improve_visits Reverse d van before kept list limit)
        × SameVisits before after
        × Claimed two_opt d van limit (list_of before kept list) (list_of after kept list) (reported a) }
{
    let day = Day {
        locations: l,
        flags,
        demand,
        service,
        ready,
        due,
        penalty,
        distances,
        times,
    };
    let answer = planner::improve::two_opt_improve(&day, van, visits, lengths, list, limit);
    write_improved(answer, settled, moves, distance)
}

// Or-opt of the list asked for.
#[unsafe(no_mangle)]
pub extern "C" fn planner_or_opt_improve(
    l: usize,
    flags: &[u8],
    demand: &[i32],
    service: &[f64],
    ready: &[f64],
    due: &[f64],
    penalty: &[f64],
    distances: &[f64],
    times: &[f64],
    van: Van,
    visits: &mut [u16],
    lengths: &[u16],
    list: usize,
    limit: u32,
    settled: &mut u8,
    moves: &mut u32,
    distance: &mut f64,
) -> u8
    ensures { let d = day_at l flags.entry demand.entry service.entry ready.entry due.entry penalty.entry distances.entry times.entry in
        let before = visits.old in
        let after = visits.new in
        let kept = lengths.now in
        let a = improve_answer Relocate d van before kept list limit in
        (result ≡ number_of a)
        × (settled.new ≡ settled_in a settled.old)
        × (moves.new ≡ moves_in a moves.old)
        × (distance.new ≡ end_distance_in a distance.old)
        × (after ≡ improve_visits Relocate d van before kept list limit)
        × SameVisits before after
        × Claimed (or_opt n_minus_length) d van limit (list_of before kept list) (list_of after kept list) (reported a) }
{
    let day = Day {
        locations: l,
        flags,
        demand,
        service,
        ready,
        due,
        penalty,
        distances,
        times,
    };
    let answer = planner::improve::or_opt_improve(&day, van, visits, lengths, list, limit);
    write_improved(answer, settled, moves, distance)
}

// 3-opt of the list asked for.
#[unsafe(no_mangle)]
pub extern "C" fn planner_three_opt_improve(
    l: usize,
    flags: &[u8],
    demand: &[i32],
    service: &[f64],
    ready: &[f64],
    due: &[f64],
    penalty: &[f64],
    distances: &[f64],
    times: &[f64],
    van: Van,
    visits: &mut [u16],
    lengths: &[u16],
    list: usize,
    limit: u32,
    settled: &mut u8,
    moves: &mut u32,
    distance: &mut f64,
) -> u8
    ensures { let d = day_at l flags.entry demand.entry service.entry ready.entry due.entry penalty.entry distances.entry times.entry in
        let before = visits.old in
        let after = visits.new in
        let kept = lengths.now in
        let a = improve_answer Reconnect d van before kept list limit in
        (result ≡ number_of a)
        × (settled.new ≡ settled_in a settled.old)
        × (moves.new ≡ moves_in a moves.old)
        × (distance.new ≡ end_distance_in a distance.old)
        × (after ≡ improve_visits Reconnect d van before kept list limit)
        × SameVisits before after
        × Claimed three_opt d van limit (list_of before kept list) (list_of after kept list) (reported a) }
{
    let day = Day {
        locations: l,
        flags,
        demand,
        service,
        ready,
        due,
        penalty,
        distances,
        times,
    };
    let answer = planner::improve::three_opt_improve(&day, van, visits, lengths, list, limit);
    write_improved(answer, settled, moves, distance)
}
