// Refusals 11 and 12 of document 01: the lengths of a fleet's columns and of the lists' columns, and the prices among these.

#![tactic(auto, unfolding(tests::specs::All::unless, fleet::specs::Refusal::cost_columns_ok, fleet::specs::Refusal::limit_columns_ok, fleet::specs::Refusal::columns_ok, fleet::specs::Refusal::list_columns_ok, fleet::specs::Refusal::fleet_ok, fleet::specs::Refusal::prices_refusal))]

ghost use Rattle.std.specs.Prelude.{◌≡◌, length};
ghost use Rattle.day.specs.Number.{number_of};
ghost use Rattle.fleet.specs.Refusal.{cost_columns_ok, limit_columns_ok, list_columns_ok, fleet_ok, prices_refusal};

use day::refusal::Refusal;
use day_tests::all_plain;
use fleet::Fleet;

// 11, of the columns that every van uses.
fn cost_columns_ok(fleet: &Fleet) -> bool
    ensures { let f = fleet.now in
        result ≡ cost_columns_ok (length f.ids) f.depots f.capacities f.distance_costs f.fixed_costs f.flags }
{
    let n = fleet.ids.len();
    fleet.depots.len() == n
        && fleet.capacities.len() == n
        && fleet.distance_costs.len() == n
        && fleet.fixed_costs.len() == n
        && fleet.flags.len() == n
}

// 11, of the columns of the limits and the break.
fn limit_columns_ok(fleet: &Fleet) -> bool
    ensures { let f = fleet.now in
        result ≡ limit_columns_ok (length f.ids) f.max_distances f.max_durations f.earliest f.latest f.durations }
{
    let n = fleet.ids.len();
    fleet.max_distances.len() == n
        && fleet.max_durations.len() == n
        && fleet.earliest.len() == n
        && fleet.latest.len() == n
        && fleet.durations.len() == n
}

// 11, of the lists' columns.
fn list_columns_ok(number: usize, ids: &[u32], prices: &[f64]) -> bool
    ensures { result ≡ list_columns_ok number ids.now prices.now }
{
    ids.len() == number && prices.len() == number
}

// 11
pub fn fleet_ok(fleet: &Fleet, number: usize, ids: &[u32], prices: &[f64]) -> bool
    ensures { result ≡ fleet_ok fleet.now number ids.now prices.now }
{
    fleet.ids.len() <= 16
        && cost_columns_ok(fleet)
        && limit_columns_ok(fleet)
        && list_columns_ok(number, ids, prices)
}

// 12 where a starting price isn't plain.
pub fn prices_refusal(prices: &[f64]) -> Result<(), Refusal>
    ensures { number_of result ≡ prices_refusal prices.now }
{
    if !all_plain(prices) {
        return Err(Refusal::Price);
    }
    Ok(())
}
