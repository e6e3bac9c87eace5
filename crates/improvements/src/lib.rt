// The entries that change one list in place: 2-opt, Or-opt and 3-opt. Each contract says, in this order: what is answered; what the table of visits holds
// then; that it holds the same visits as before, whatever the numbers; and, where demand 3's premises hold, its claim about this run.

#![tactic(auto)]

ghost use Rattle.std.specs.Prelude.{◌≡◌, true, ◌<◌};
ghost use Rattle.day.specs.Refusal.{all_plain};
ghost use Rattle.day.specs.Vehicle.{limits_of};
ghost use Rattle.edits.specs.Total.{SameVisits};
ghost use Rattle.lists.specs.Table.{list_of};
ghost use Rattle.labels.specs.Columns.{Visits};
ghost use Rattle.labels.specs.Lent.{lent};
ghost use Rattle.evaluation.specs.Distance.{route_distance};
ghost use Rattle.descent.specs.Permitted.{two_opt, or_opt, three_opt, n_minus_length};
ghost use Rattle.neighbours.specs.Neighbours as neighbours;
ghost use Rattle.within.specs.Within.{ran_by};
ghost use Rattle.improvements.specs.Improve.{improved_of, improved_as, improve_answer, improve_visits, reported};
ghost use Rattle.claims.specs.Demand3.{Claimed};

use day::day::Day;
use day::refusal::Refusal;
use day::vehicle::{RouteLimits, Van};
use engine::Ended;
use evaluation::distance::route_distance;
use labels::columns::Columns;
use lists::{end_of, start_of};
use neighbours::reconnect::Reconnect;
use neighbours::relocate::Relocate;
use neighbours::reverse::Reverse;
use refusals::refusal_of;
use within::Searched;

// How a run on one list ended, with the moves made and the distance of the list handed back.
#[derive(Clone, Copy)]
pub enum Improved {
    // No permitted move gains any more.
    Settled { moves: u32, distance: f64 },
    // The limit was used up, and another move would gain.
    Stopped { moves: u32, distance: f64 },
}

fn improved_of(ended: Ended, distance: f64) -> Improved
    ensures { result ≡ improved_of ended distance }
{
    match ended {
        Ended::Settled(moves) => Improved::Settled { moves, distance },
        Ended::Stopped(moves) => Improved::Stopped { moves, distance },
    }
}

// The run on the caller's part of the table that is the list asked for, and the distance of what it leaves.
fn improve_part<N: Searched>(columns: &Columns, van: Van, part: &mut [u16], limit: u32) -> Improved
    requires depot_lt_l { (van.depot < columns.now.locations) × Visits columns.now.locations part.old }
    requires distances_value { all_plain columns.now.distances.now ≡ true }
    ensures { let c = lent columns.now in
        let ran = ran_by N.which c (limits_of van) van.depot limit part.old in
        (part.new ≡ ran.list)
        × (result ≡ improved_as ran.word ran.moves (route_distance columns.now.locations columns.now.distances.now van.depot ran.list)) }
{
    let depot = van.depot;
    let limits = RouteLimits::of(van);
    let ended = within::improve::<N>(columns, limits, depot, part, limit);
    let distance = route_distance(&columns.matrix(), depot, part);
    improved_of(ended, distance)
}

// What the three entries share: the refusals, and the run on the list asked for.
fn improve_list<N: Searched>(
    day: &Day,
    van: Van,
    visits: &mut [u16],
    lengths: &[u16],
    list: usize,
    limit: u32,
) -> Result<Improved, Refusal>
    ensures { (result ≡ improve_answer N.which day.now van visits.old lengths.now list limit)
        × (visits.new ≡ improve_visits N.which day.now van visits.old lengths.now list limit) }
{
    refusal_of(day, van, visits, lengths, list)?;
    let start = start_of(lengths, list);
    let end = end_of(lengths, list);
    let columns = Columns::of(day);
    let improved = improve_part::<N>(&columns, van, &mut visits[start..end], limit);
    Ok(improved)
}

// 2-opt (Croes 1958) of the list asked for, by at most `limit` moves.
pub fn two_opt_improve(
    day: &Day,
    van: Van,
    visits: &mut [u16],
    lengths: &[u16],
    list: usize,
    limit: u32,
) -> Result<Improved, Refusal>
    ensures answer { let before = visits.old in
        let after = visits.new in
        let kept = lengths.now in
        (result ≡ improve_answer neighbours.Reverse day.now van before kept list limit)
        × (after ≡ improve_visits neighbours.Reverse day.now van before kept list limit)
        × SameVisits before after
        × Claimed two_opt day.now van limit (list_of before kept list) (list_of after kept list) (reported result) }
{
    improve_list::<Reverse>(day, van, visits, lengths, list, limit)
}

// Or-opt (Or 1976) of the list asked for, by at most `limit` moves.
pub fn or_opt_improve(
    day: &Day,
    van: Van,
    visits: &mut [u16],
    lengths: &[u16],
    list: usize,
    limit: u32,
) -> Result<Improved, Refusal>
    ensures answer { let before = visits.old in
        let after = visits.new in
        let kept = lengths.now in
        (result ≡ improve_answer neighbours.Relocate day.now van before kept list limit)
        × (after ≡ improve_visits neighbours.Relocate day.now van before kept list limit)
        × SameVisits before after
        × Claimed (or_opt n_minus_length) day.now van limit (list_of before kept list) (list_of after kept list) (reported result) }
{
    improve_list::<Relocate>(day, van, visits, lengths, list, limit)
}

// 3-opt (Lin 1965) of the list asked for, by at most `limit` moves.
pub fn three_opt_improve(
    day: &Day,
    van: Van,
    visits: &mut [u16],
    lengths: &[u16],
    list: usize,
    limit: u32,
) -> Result<Improved, Refusal>
    ensures answer { let before = visits.old in
        let after = visits.new in
        let kept = lengths.now in
        (result ≡ improve_answer neighbours.Reconnect day.now van before kept list limit)
        × (after ≡ improve_visits neighbours.Reconnect day.now van before kept list limit)
        × SameVisits before after
        × Claimed three_opt day.now van limit (list_of before kept list) (list_of after kept list) (reported result) }
{
    improve_list::<Reconnect>(day, van, visits, lengths, list, limit)
}
