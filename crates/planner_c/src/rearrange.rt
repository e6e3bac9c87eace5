// The entries across lists, which change all lists in place. `settled` is written 1 where no permitted move gains any more, and 0 where the limit was
// used up; `remaining` is the number of lists handed back.
ghost use Rattle.std.specs.Prelude.{◌≡◌, false, take};
ghost use Rattle.day.specs.Day.{day_at};
ghost use Rattle.day.specs.Number.{number_of};
ghost use Rattle.edits.specs.Total.{SameVisits};
ghost use Rattle.lists.specs.Table.{lists};
ghost use Rattle.descent.specs.Permitted.{relocate, tail_exchange};
ghost use Rattle.across.specs.Across.{relocate_ran, exchange_ran};
ghost use Rattle.rearrangements.specs.Rearrange.{rearrange_answer, rearrange_visits, rearrange_lengths, reported_over, remaining_in};
ghost use Rattle.claims.specs.Demand3.{Claimed};
ghost use Rattle.written.specs.Written.{over_settled_in, over_moves_in, remaining_written};

use day::day::Day;
use day::vehicle::Van;
use written::write_rearranged;

// Relocate over all lists; with `pruning` 0 every candidate is tried, and the outcome is the same.
#[unsafe(no_mangle)]
pub extern "C" fn planner_relocate_improve(
    l: usize,
    flags: &[u8],
    demand: &[i32],
    service: &[f64],
    ready: &[f64],
    due: &[f64],
    penalty: &[f64],
    distances: &[f64],
    times: &[f64],
    van: Van,
    visits: &mut [u16],
    lengths: &mut [u16],
    limit: u32,
    pruning: u8,
    settled: &mut u8,
    moves: &mut u32,
    remaining: &mut usize,
) -> u8
    ensures { let d = day_at l flags.entry demand.entry service.entry ready.entry due.entry penalty.entry distances.entry times.entry in
        let visits0 = visits.old in
        let lengths0 = lengths.old in
        let visits1 = visits.new in
        let lengths1 = lengths.new in
        let a = rearrange_answer relocate_ran d van visits0 lengths0 limit in
        (result ≡ number_of a)
        × (settled.new ≡ over_settled_in a settled.old)
        × (moves.new ≡ over_moves_in a moves.old)
        × (remaining.new ≡ remaining_written a remaining.old)
        × (visits1 ≡ rearrange_visits relocate_ran d van visits0 lengths0 limit)
        × (lengths1 ≡ rearrange_lengths relocate_ran d van visits0 lengths0 limit)
        × SameVisits visits0 visits1
        × Claimed (relocate false) d van limit (lists visits0 lengths0) (take (remaining_in a) (lists visits1 lengths1)) (reported_over a) }
{
    let day = Day {
        locations: l,
        flags,
        demand,
        service,
        ready,
        due,
        penalty,
        distances,
        times,
    };
    let prunes = pruning != 0;
    let answer = planner::rearrange::relocate_improve(&day, van, visits, lengths, limit, prunes);
    write_rearranged(answer, settled, moves, remaining)
}

// Tail exchange between all lists.
#[unsafe(no_mangle)]
pub extern "C" fn planner_exchange_improve(
    l: usize,
    flags: &[u8],
    demand: &[i32],
    service: &[f64],
    ready: &[f64],
    due: &[f64],
    penalty: &[f64],
    distances: &[f64],
    times: &[f64],
    van: Van,
    visits: &mut [u16],
    lengths: &mut [u16],
    limit: u32,
    settled: &mut u8,
    moves: &mut u32,
    remaining: &mut usize,
) -> u8
    ensures { let d = day_at l flags.entry demand.entry service.entry ready.entry due.entry penalty.entry distances.entry times.entry in
        let visits0 = visits.old in
        let lengths0 = lengths.old in
        let visits1 = visits.new in
        let lengths1 = lengths.new in
        let a = rearrange_answer exchange_ran d van visits0 lengths0 limit in
        (result ≡ number_of a)
        × (settled.new ≡ over_settled_in a settled.old)
        × (moves.new ≡ over_moves_in a moves.old)
        × (remaining.new ≡ remaining_written a remaining.old)
        × (visits1 ≡ rearrange_visits exchange_ran d van visits0 lengths0 limit)
        × (lengths1 ≡ rearrange_lengths exchange_ran d van visits0 lengths0 limit)
        × SameVisits visits0 visits1
        × Claimed tail_exchange d van limit (lists visits0 lengths0) (take (remaining_in a) (lists visits1 lengths1)) (reported_over a) }
{
    let day = Day {
        locations: l,
        flags,
        demand,
        service,
        ready,
        due,
        penalty,
        distances,
        times,
    };
    let answer = planner::rearrange::exchange_improve(&day, van, visits, lengths, limit);
    write_rearranged(answer, settled, moves, remaining)
}
