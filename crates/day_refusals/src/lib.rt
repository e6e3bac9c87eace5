// Refusals 1 to 5 of document 01, those of the day, found in the order of their numbers.

#![tactic(auto, unfolding(tests::specs::All::unless, day::specs::Refusal::size_ok, day::specs::Refusal::tables_ok, day::specs::Refusal::lengths_ok, crate::specs::Order::contents_refusal, crate::specs::Order::day_refusal))]

ghost use Rattle.std.specs.Prelude.{◌≡◌, ◌≤◌};
ghost use Rattle.day.specs.Number.{number_of};
ghost use Rattle.day.specs.Refusal.{size_ok, tables_ok, lengths_ok};
ghost use Rattle.day.specs.Fine.{Shaped};
ghost use Rattle.day_refusals.specs.Order.{contents_refusal, day_refusal};

use day::day::Day;
use day::refusal::Refusal;
use day_tests::{all_plain, depots_lead, locations_ok, windows_ok};

// 1
fn size_ok(l: usize) -> bool
    ensures { result ≡ size_ok l }
{
    0 < l && l <= 64
}

// 2, of the tables.
fn tables_ok(l: usize, distances: &[f64], times: &[f64]) -> bool
    requires { l ≤ 64 }
    ensures { result ≡ tables_ok l distances.now times.now }
{
    let size = l * l;
    distances.len() == size && (times.len() == 0 || times.len() == size)
}

// 2
fn lengths_ok(day: &Day) -> bool
    requires { day.now.l ≤ 64 }
    ensures { result ≡ lengths_ok day.now }
{
    let l = day.locations;
    day.flags.len() == l
        && day.demand.len() == l
        && day.service.len() == l
        && day.ready.len() == l
        && day.due.len() == l
        && day.penalty.len() == l
        && tables_ok(l, day.distances, day.times)
}

// The first of 3 to 5 of a day whose tables have the right lengths.
fn contents_refusal(day: &Day) -> Result<(), Refusal>
    requires { Shaped day.now }
    ensures { number_of result ≡ contents_refusal day.now }
{
    if !(all_plain(day.distances) && all_plain(day.times)) {
        return Err(Refusal::Tables);
    }
    if !(locations_ok(day) && depots_lead(day.flags)) {
        return Err(Refusal::Locations);
    }
    if !windows_ok(day) {
        return Err(Refusal::Windows);
    }
    Ok(())
}

// The first refusal of the day, 1 to 5.
pub fn day_refusal(day: &Day) -> Result<(), Refusal>
    ensures { number_of result ≡ day_refusal day.now }
{
    if !size_ok(day.locations) {
        return Err(Refusal::Size);
    }
    if !lengths_ok(day) {
        return Err(Refusal::Lengths);
    }
    contents_refusal(day)
}
