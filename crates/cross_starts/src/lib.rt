// The start of a run: the van of each list, and what each list costs by the price that is lent.

#![tactic(auto)]

ghost use Rattle.std.specs.Prelude.{◌≡◌, ◌≤◌, ◌<◌, length};
ghost use Rattle.fleet.specs.Fleet.{Fitted};
ghost use Rattle.cross_moves.specs.CrossDepot.{found_ids, starting_costs};

use fleet::Fleet;
use vehicles::fleet_vehicle;

// Puts in each list the id of the van that is found, and fills in what each list costs by that van and the price that is lent.
pub fn start(fleet: &Fleet, ids: &mut [u32], prices: &[f64], costs: &mut [f64])
    requires fitted { Fitted fleet.now }
    requires nonzero { ((0 < length fleet.now.ids) × (length fleet.now.ids ≤ 16)) × (length ids.old ≤ 16) }
    requires prices_len { (length prices.now ≡ length ids.old) × (length costs.old ≡ length ids.old) }
    ensures { let found = found_ids fleet.now ids.old
        in (ids.new ≡ found) × (costs.new ≡ starting_costs fleet.now found prices.now) }
{
    for i in 0..ids.len() {
        let van = fleet_vehicle(fleet, ids[i]);
        ids[i] = van.id;
        costs[i] = van.route_cost(prices[i]);
    }
}
