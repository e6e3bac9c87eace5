// Two lists of the plan, and a move between them.
ghost use Rattle.std.specs.Prelude.{◌≡◌, ◌≤◌, ◌<◌, length};
ghost use Rattle.fleet.specs.Fleet.{Fitted};
ghost use Rattle.cross_moves.specs.CrossDepot.{pair_of, same_depot};

use day::vehicle::Van;
use fleet::Fleet;
use vehicles::fleet_vehicle;

// Two lists by number, their vans, and what they cost together.
#[derive(Clone, Copy)]
pub struct Pair {
    pub one: usize,
    pub other: usize,
    pub van1: Van,
    pub van2: Van,
    pub before: f64,
}

// List `one` gives the visits from `from1` up to `to1`, list `other` those from `from2` up to `to2`, and each stretch goes where the other was.
// `tested` is 1 where the load of list `one` has to be within its van's capacity, else 0: a whole word, so that copies of a move move no padding.
#[derive(Clone, Copy)]
pub struct Move {
    pub one: usize,
    pub from1: usize,
    pub to1: usize,
    pub other: usize,
    pub from2: usize,
    pub to2: usize,
    pub tested: usize,
}

// Lists a and b, with their vans and what they cost together.
#[tactic(auto, unfolding(crate::specs::CrossDepot::pair_of))]
pub fn pair_at(fleet: &Fleet, ids: &[u32], costs: &[f64], a: usize, b: usize) -> Pair
    requires fitted { Fitted fleet.now }
    requires nonzero { (0 < length fleet.now.ids) × (length fleet.now.ids ≤ 16) }
    requires a_in_bounds { (a < length ids.now) × (b < length ids.now) × (length costs.now ≡ length ids.now) × (length ids.now ≤ 16) }
    ensures { result ≡ pair_of fleet.now
        ids.now costs.now a b }
{
    let van1 = fleet_vehicle(fleet, ids[a]);
    let van2 = fleet_vehicle(fleet, ids[b]);
    Pair {
        one: a,
        other: b,
        van1,
        van2,
        before: costs[a] + costs[b],
    }
}

impl Pair {
    // Whether both vans start from one depot.
    pub fn is_same_depot(&self) -> bool
        ensures { result ≡ same_depot self.now }
    {
        self.van1.depot == self.van2.depot
    }
}
