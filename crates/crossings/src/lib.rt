// The entry across depots, which changes all lists in place and the ids of their vans. Its contract says, in this order: what is answered; what the three
// tables hold then; that they hold the same visits as before, whatever the numbers; and what the lists handed back carry.

#![tactic(auto)]

ghost use Rattle.std.specs.Prelude.{◌≡◌, take};
ghost use Rattle.edits.specs.Total.{SameVisits};
ghost use Rattle.lists.specs.Table.{lists};
ghost use Rattle.cross_moves.specs.CrossDepot.{Carried};
ghost use Rattle.crossings.specs.CrossDepot.{cross_answer, cross_visits, cross_lengths, cross_ids};
ghost use Rattle.rearrangements.specs.Rearrange.{remaining_in};

use day::day::Day;
use day::refusal::Refusal;
use fleet::Fleet;
use labels::columns::Columns;
use rearrangements::{Rearranged, rearranged_of};
use refusals::refusal_of_fleet;

// Moves visits between lists under different vans, by at most `limit` moves. Each list has the id of its van and, only read, its price at the start.
pub fn cross_depot_improve(
    day: &Day,
    fleet: &Fleet,
    visits: &mut [u16],
    lengths: &mut [u16],
    ids: &mut [u32],
    prices: &[f64],
    limit: u32,
) -> Result<Rearranged, Refusal>
    ensures answer { let visits0 = visits.old in
        let lengths0 = lengths.old in
        let ids0 = ids.old in
        let prices0 = prices.now in
        let visits1 = visits.new in
        let lengths1 = lengths.new in
        let ids1 = ids.new in
        (result ≡ cross_answer day.now fleet.now visits0 lengths0 ids0 prices0 limit)
        × (visits1 ≡ cross_visits day.now fleet.now visits0 lengths0 ids0 prices0 limit)
        × (lengths1 ≡ cross_lengths day.now fleet.now visits0 lengths0 ids0 prices0 limit)
        × (ids1 ≡ cross_ids day.now fleet.now visits0 lengths0 ids0 prices0 limit)
        × SameVisits visits0 visits1
        × Carried day.now.demand fleet.now (lists visits0 lengths0) ids0 (take (remaining_in result) (lists visits1 lengths1)) (take (remaining_in result) ids1) }
{
    refusal_of_fleet(day, fleet, visits, lengths, ids, prices)?;
    let columns = Columns::of(day);
    let crossed = cross_depot::improve(
        &columns, day.demand, fleet, visits, lengths, ids, prices, limit,
    );
    let rearranged = rearranged_of(crossed.ended, crossed.lists);
    Ok(rearranged)
}
