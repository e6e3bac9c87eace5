// The entries across lists, which change all lists in place: relocate and tail exchange. Each contract says, in this order: what is answered; what the
// two tables hold then; that they hold the same visits as before, whatever the numbers; and, where demand 3's premises hold, its claim about this run.

#![tactic(auto)]

ghost use Rattle.std.specs.Prelude.{◌≡◌, false, take};
ghost use Rattle.edits.specs.Total.{SameVisits};
ghost use Rattle.lists.specs.Table.{lists};
ghost use Rattle.descent.specs.Permitted.{relocate, tail_exchange};
ghost use Rattle.across.specs.Across.{relocate_ran, exchange_ran};
ghost use Rattle.rearrangements.specs.Rearrange.{rearranged_of, lengths_left, number_left, rearrange_answer, rearrange_visits, rearrange_lengths};
ghost use Rattle.rearrangements.specs.Rearrange.{reported_over, remaining_in};
ghost use Rattle.claims.specs.Demand3.{Claimed};

use day::day::Day;
use day::refusal::Refusal;
use day::vehicle::{RouteLimits, Van};
use engine::Ended;
use labels::columns::Columns;
use list_changes::drop_empty;
use refusals::refusal_of_lists;

// How a run over all lists ended, with the moves made and the lists that remain.
#[derive(Clone, Copy)]
pub enum Rearranged {
    // No permitted move gains any more.
    Settled { moves: u32, remaining: usize },
    // The limit was used up, and another move would gain.
    Stopped { moves: u32, remaining: usize },
}

// Drops the empty lists, where there are two lists or more, and answers how many remain.
fn drop_lists(lengths: &mut [u16]) -> usize
    ensures { (result ≡ number_left lengths.old) × (lengths.new ≡ lengths_left lengths.old) }
{
    if lengths.len() < 2 {
        return lengths.len();
    }
    drop_empty(lengths)
}

// What is answered where a run ended so, and so many lists remain.
pub fn rearranged_of(ended: Ended, remaining: usize) -> Rearranged
    ensures { result ≡ rearranged_of ended remaining }
{
    match ended {
        Ended::Settled(moves) => Rearranged::Settled { moves, remaining },
        Ended::Stopped(moves) => Rearranged::Stopped { moves, remaining },
    }
}

// Relocate over all lists, by at most `limit` moves. With `pruning`, as in the Rust, visits whose known least insertion gains nothing are passed over;
// the outcome is the same without.
pub fn relocate_improve(
    day: &Day,
    van: Van,
    visits: &mut [u16],
    lengths: &mut [u16],
    limit: u32,
    pruning: bool,
) -> Result<Rearranged, Refusal>
    ensures answer { let visits0 = visits.old in
        let lengths0 = lengths.old in
        let visits1 = visits.new in
        let lengths1 = lengths.new in
        (result ≡ rearrange_answer relocate_ran day.now van visits0 lengths0 limit)
        × (visits1 ≡ rearrange_visits relocate_ran day.now van visits0 lengths0 limit)
        × (lengths1 ≡ rearrange_lengths relocate_ran day.now van visits0 lengths0 limit)
        × SameVisits visits0 visits1
        × Claimed (relocate false) day.now van limit (lists visits0 lengths0) (take (remaining_in result) (lists visits1 lengths1)) (reported_over result) }
{
    refusal_of_lists(day, van, visits, lengths)?;
    let columns = Columns::of(day);
    let limits = RouteLimits::of(van);
    let fixed = van.fixed_cost_in_distance();
    let ended = across::relocate_visits(
        &columns,
        day.demand,
        limits,
        van.capacity,
        fixed,
        van.depot,
        visits,
        lengths,
        limit,
        pruning,
    );
    let remaining = drop_lists(lengths);
    let rearranged = rearranged_of(ended, remaining);
    Ok(rearranged)
}

// Tail exchange (Potvin and Rousseau 1995) between all lists, by at most `limit` moves.
pub fn exchange_improve(
    day: &Day,
    van: Van,
    visits: &mut [u16],
    lengths: &mut [u16],
    limit: u32,
) -> Result<Rearranged, Refusal>
    ensures answer { let visits0 = visits.old in
        let lengths0 = lengths.old in
        let visits1 = visits.new in
        let lengths1 = lengths.new in
        (result ≡ rearrange_answer exchange_ran day.now van visits0 lengths0 limit)
        × (visits1 ≡ rearrange_visits exchange_ran day.now van visits0 lengths0 limit)
        × (lengths1 ≡ rearrange_lengths exchange_ran day.now van visits0 lengths0 limit)
        × SameVisits visits0 visits1
        × Claimed tail_exchange day.now van limit (lists visits0 lengths0) (take (remaining_in result) (lists visits1 lengths1)) (reported_over result) }
{
    refusal_of_lists(day, van, visits, lengths)?;
    let columns = Columns::of(day);
    let limits = RouteLimits::of(van);
    let fixed = van.fixed_cost_in_distance();
    let ended = across::exchange_tails(
        &columns,
        day.demand,
        limits,
        van.capacity,
        fixed,
        van.depot,
        visits,
        lengths,
        limit,
    );
    let remaining = drop_lists(lengths);
    let rearranged = rearranged_of(ended, remaining);
    Ok(rearranged)
}
