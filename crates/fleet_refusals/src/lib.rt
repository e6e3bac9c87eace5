// The refusals of a fleet, of document 01's table, in their order: 11 first, then every van for 6, then every van for 7.

#![tactic(auto, using(fleet::specs::Refusal::columns_fine), unfolding(tests::specs::All::unless, crate::specs::Order::fleet_refusal))]

ghost use Rattle.std.specs.Prelude.{◌≡◌, ◌≤◌, length};
ghost use Rattle.day.specs.Number.{number_of};
ghost use Rattle.fleet.specs.Fleet.{Fitted};
ghost use Rattle.fleet.specs.Refusal.{depots_ok, vans_ok};
ghost use Rattle.fleet_refusals.specs.Order.{fleet_refusal};

use day::refusal::Refusal;
use day_scans::customer::num_depots;
use fleet::Fleet;
use fleet_columns::fleet_ok;
use van_refusals::van_ok;
use vehicles::van_at;

// 6, of every van.
fn depots_ok(flags: &[u8], fleet: &Fleet) -> bool
    requires { Fitted fleet.now × (length fleet.now.ids ≤ 16) }
    ensures { result ≡ depots_ok flags.now fleet.now }
{
    let depots_there = num_depots(flags);
    fleet.depots.iter().all(|depot| *depot < depots_there)
}

// 7, of every van.
fn vans_ok(fleet: &Fleet) -> bool
    requires { Fitted fleet.now × (length fleet.now.ids ≤ 16) }
    ensures { result ≡ vans_ok fleet.now }
{
    (0..fleet.ids.len()).all(|k| van_ok(van_at(fleet, k)))
}

// The first refusal of the fleet, 11, 6 or 7.
pub fn fleet_refusal(
    flags: &[u8],
    fleet: &Fleet,
    number: usize,
    ids: &[u32],
    prices: &[f64],
) -> Result<(), Refusal>
    ensures { number_of result ≡ fleet_refusal flags.now fleet.now number ids.now prices.now }
{
    if !fleet_ok(fleet, number, ids, prices) {
        return Err(Refusal::Fleet);
    }
    if !depots_ok(flags, fleet) {
        return Err(Refusal::Depot);
    }
    if !vans_ok(fleet) {
        return Err(Refusal::Van);
    }
    Ok(())
}
