// The first refusal of an input, which every entry asks first.

#![tactic(auto)]

ghost use Rattle.std.specs.Prelude.{◌≡◌};
ghost use Rattle.day.specs.Number.{number_of};
ghost use Rattle.refusals.specs.Refusal.{refusal, refusal_of_lists, refusal_of_fleet, day_and_van_refusal};

use day::day::Day;
use day::refusal::Refusal;
use day::vehicle::Van;
use day_refusals::day_refusal;
use day_scans::customer::num_depots;
use fleet::Fleet;
use fleet_columns::prices_refusal;
use fleet_refusals::fleet_refusal;
use list_refusals::{lists_refusal, table_refusal};
use van_refusals::van_refusal;

// The first of refusals 1 to 10 that the input meets.
pub fn refusal_of(
    day: &Day,
    van: Van,
    visits: &[u16],
    lengths: &[u16],
    list: usize,
) -> Result<(), Refusal>
    ensures answer { number_of result ≡ refusal day.now van visits.now lengths.now list }
{
    day_refusal(day)?;
    van_refusal(day.flags, van)?;
    let depots = num_depots(day.flags);
    lists_refusal(depots, day.locations, visits, lengths, list)
}

// The same of an entry that takes all lists and asks for none.
pub fn refusal_of_lists(day: &Day, van: Van, visits: &[u16], lengths: &[u16]) -> Result<(), Refusal>
    ensures answer { number_of result ≡ refusal_of_lists day.now van visits.now lengths.now }
{
    day_refusal(day)?;
    van_refusal(day.flags, van)?;
    let depots = num_depots(day.flags);
    table_refusal(depots, day.locations, visits, lengths)
}

// The first of refusals 1 to 7, which look at no list.
pub fn day_and_van_refusal(day: &Day, van: Van) -> Result<(), Refusal>
    ensures answer { number_of result ≡ day_and_van_refusal day.now van }
{
    day_refusal(day)?;
    van_refusal(day.flags, van)
}

// The first refusal of an input with a fleet: 1 to 5, 11, 6 of every van, 7 of every van, 8 to 10, 12.
pub fn refusal_of_fleet(
    day: &Day,
    fleet: &Fleet,
    visits: &[u16],
    lengths: &[u16],
    ids: &[u32],
    prices: &[f64],
) -> Result<(), Refusal>
    ensures answer { number_of result ≡ refusal_of_fleet day.now fleet.now visits.now lengths.now ids.now prices.now }
{
    day_refusal(day)?;
    fleet_refusal(day.flags, fleet, lengths.len(), ids, prices)?;
    let depots = num_depots(day.flags);
    table_refusal(depots, day.locations, visits, lengths)?;
    prices_refusal(prices)
}
