// A fleet as it is lent, a column for each field of a van. What a fleet is, which van has an id and what is refused of a fleet is defined in specs/.

#![tactic(auto)]

use std::marker::Model;

// What a call is lent of a fleet. Its columns may have any length.
#[derive(Drop)]
pub struct Fleet<'a> {
    pub ids: &'a [u32],
    pub depots: &'a [usize],
    pub capacities: &'a [i32],
    pub distance_costs: &'a [f64],
    pub fixed_costs: &'a [f64],
    pub flags: &'a [u8],
    pub max_distances: &'a [f64],
    pub max_durations: &'a [f64],
    pub earliest: &'a [f64],
    pub latest: &'a [f64],
    pub durations: &'a [f64],
}

impl<'a> Model for Fleet<'a> {
    ghost use Rattle.fleet.specs.Fleet.{Fleet as Lent, fleet_at};

    ghost Value = { Lent };

    ghost view = { λ f. fleet_at f.ids f.depots f.capacities f.distance_costs f.fixed_costs f.flags
        f.max_distances f.max_durations f.earliest f.latest f.durations };
}
