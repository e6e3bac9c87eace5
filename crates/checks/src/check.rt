// The entries that look at one list and change nothing: its distance, whether it passes, what it comes to, and its schedule.
ghost use Rattle.std.specs.Prelude.{◌≡◌};
ghost use Rattle.checks.specs.Answer.{distance_answer, feasible_answer, eval_answer, schedule_answer};

use break_clock::Scheduled;
use day::day::Day;
use day::matrix::Matrix;
use day::refusal::Refusal;
use day::vehicle::{RouteLimits, Van};
use evaluation::route::RouteEval;
use labels::columns::Columns;
use lists::list_of;
use refusals::refusal_of;

// The distance of the list asked for, from the van's depot over the visits and back: 0 for an empty list.
pub fn route_distance(
    day: &Day,
    van: Van,
    visits: &[u16],
    lengths: &[u16],
    list: usize,
) -> Result<f64, Refusal>
    ensures answer { result ≡ distance_answer day.now van visits.now lengths.now list }
{
    refusal_of(day, van, visits, lengths, list)?;
    let distances = Matrix {
        size: day.locations,
        entries: day.distances,
    };
    let distance = evaluation::distance::route_distance(
        &distances,
        van.depot,
        list_of(visits, lengths, list),
    );
    Ok(distance)
}

// Whether the list asked for passes: it doesn't where a hard window can't be kept, the break can't be placed, or a limit is broken. Capacity is not
// checked here.
pub fn route_feasible(
    day: &Day,
    van: Van,
    visits: &[u16],
    lengths: &[u16],
    list: usize,
) -> Result<bool, Refusal>
    ensures answer { result ≡ feasible_answer day.now van visits.now lengths.now list }
{
    refusal_of(day, van, visits, lengths, list)?;
    let visited = list_of(visits, lengths, list);
    let columns = Columns::of(day);
    let passes = evaluation::route::route_feasible(
        &columns,
        RouteLimits::of(van),
        van.depot,
        visited,
    );
    Ok(passes)
}

// What the list asked for comes to, where it passes.
pub fn route_eval(
    day: &Day,
    van: Van,
    visits: &[u16],
    lengths: &[u16],
    list: usize,
) -> Result<Option<RouteEval>, Refusal>
    ensures answer { result ≡ eval_answer day.now van visits.now lengths.now list }
{
    refusal_of(day, van, visits, lengths, list)?;
    let visited = list_of(visits, lengths, list);
    let columns = Columns::of(day);
    let evaluation = evaluation::route::route_eval(
        &columns,
        RouteLimits::of(van),
        van.depot,
        visited,
    );
    Ok(evaluation)
}

// The schedule of the list asked for, whatever its length, with the van's break; for a van without one, the clock with no break to take. None where a hard
// window can't be kept, or the break can't be placed. The van's limits are not asked.
pub fn schedule(
    day: &Day,
    van: Van,
    visits: &[u16],
    lengths: &[u16],
    list: usize,
) -> Result<Option<Scheduled>, Refusal>
    ensures answer { result ≡ schedule_answer day.now van visits.now lengths.now list }
{
    refusal_of(day, van, visits, lengths, list)?;
    let visited = list_of(visits, lengths, list);
    let columns = Columns::of(day);
    let outcome = evaluation::route::outcome_of(
        &columns,
        RouteLimits::of(van).rest,
        van.depot,
        visited,
    );
    Ok(outcome)
}
