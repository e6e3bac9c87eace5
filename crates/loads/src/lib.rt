// Loads (relocate.rs and exchange.rs, `load`, `demand`): the boxes of a visit and the load of a list, for the engines that move visits between lists. A list
// has at most 63 visits of at most 1,000,000 boxes, so that no sum of theirs can wrap.

#![tactic(auto)]

ghost use Rattle.std.specs.Prelude.{◌≡◌, true, ◌<◌, ◌≤◌, pos, nat_abs, length, get_or};
ghost use Rattle.std.specs.Int.Signed.{le_z};
ghost use Rattle.day.specs.Refusal.{demand_ok};
ghost use Rattle.edits.specs.Total.{total};
ghost use Rattle.labels.specs.Columns.{Visits};
ghost use Rattle.loads.specs.Loads.{boxes_of, Loaded};

// A number of boxes, which is not below 0.
pub fn boxes_in(x: i32) -> usize
    requires { le_z (pos 0) x ≡ true }
    ensures { result ≡ nat_abs x }
{
    x as usize
}

// The boxes of a visit.
pub fn boxes_of(demand: &[i32], visit: usize) -> usize
    requires visit_in_bounds { visit < length demand.now }
    requires pos_value { demand_ok (get_or demand.now visit (pos 0)) ≡ true }
    ensures { (result ≡ boxes_of demand.now visit) × (result ≤ 1000000) }
{
    let boxes = demand[visit];
    boxes as usize
}

// The boxes of the visit at a position.
pub fn boxes_at(l: usize, demand: &[i32], list: &[u16], k: usize) -> usize
    requires { Loaded l demand.now × (k < length list.now) × (get_or list.now k 0 < l) }
    ensures { result ≡ boxes_of demand.now (get_or list.now k 0) }
{
    let visit = usize::from(list[k]);
    boxes_of(demand, visit)
}

// The load of a list: its visits' boxes added up.
pub fn load_of(l: usize, demand: &[i32], list: &[u16]) -> usize
    requires { Loaded l demand.now × Visits l list.now }
    ensures { (result ≡ total (boxes_of demand.now) list.now) × (result ≤ 63000000) }
{
    let mut load = 0;
    for visit in list {
        load += boxes_of(demand, usize::from(*visit));
    }
    load
}
