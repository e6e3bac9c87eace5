// The van of a list, by its id (`fleet_vehicle` of constructive/nearest_neighbor.rs).

#![tactic(auto, using(fleet::proofs::Numbered::number_below), unfolding(fleet::specs::Fleet::van_at))]

ghost use Rattle.std.specs.Prelude.{◌≡◌, ◌≤◌, ◌<◌, length};
ghost use Rattle.fleet.specs.Fleet.{van_at, number_from, fleet_vehicle, Fitted};

use day::vehicle::Van;
use fleet::Fleet;

// The number of the first van with an id, and 0 where there is none.
fn van_number(ids: &[u32], id: u32) -> usize
    ensures { result ≡ number_from id ids.now 0 }
{
    ids.iter().position(|van_id| *van_id == id).unwrap_or(0)
}

// Van k of the fleet.
pub fn van_at(fleet: &Fleet, k: usize) -> Van
    requires fitted { Fitted fleet.now }
    requires k_in_bounds { (k < length fleet.now.ids) × (length fleet.now.ids ≤ 16) }
    ensures { result ≡ van_at fleet.now k }
{
    Van {
        id: fleet.ids[k],
        depot: fleet.depots[k],
        capacity: fleet.capacities[k],
        cost_per_distance: fleet.distance_costs[k],
        fixed_cost: fleet.fixed_costs[k],
        flags: fleet.flags[k],
        max_distance: fleet.max_distances[k],
        max_duration: fleet.max_durations[k],
        earliest: fleet.earliest[k],
        latest: fleet.latest[k],
        duration: fleet.durations[k],
    }
}

// The first van with an id, else the first van.
pub fn fleet_vehicle(fleet: &Fleet, id: u32) -> Van
    requires fitted { Fitted fleet.now }
    requires ids_nonzero { (0 < length fleet.now.ids) × (length fleet.now.ids ≤ 16) }
    ensures { result ≡ fleet_vehicle fleet.now id }
{
    van_at(fleet, van_number(fleet.ids, id))
}
