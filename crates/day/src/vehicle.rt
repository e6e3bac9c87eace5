// models/vehicle.rs and `RouteLimits` of evaluation/mod.rs: a van, what a list costs with it, and what it allows a list.
ghost use Rattle.std.specs.Prelude.{◌≡◌};
ghost use Rattle.day.specs.Vehicle.{route_cost, fixed_cost_in_distance, limits_of, rest_of, keeps, allows, is_unlimited};

use crate::flags::{flag0, flag1, flag2};

// A van as it is lent. Flags: bit 0 distance limit, bit 1 duration limit, bit 2 break.
#[repr(C)]
#[derive(Clone, Copy)]
pub struct Van {
    pub id: u32,
    pub depot: usize,
    pub capacity: i32,
    pub cost_per_distance: f64,
    pub fixed_cost: f64,
    pub flags: u8,
    pub max_distance: f64,
    pub max_duration: f64,
    pub earliest: f64,
    pub latest: f64,
    pub duration: f64,
}

impl Van {
    // What a list of this distance costs with the van.
    pub fn route_cost(self, distance: f64) -> f64
        ensures { result ≡ route_cost self distance }
    {
        self.fixed_cost + self.cost_per_distance * distance
    }

    // The fixed cost in units of distance, 0 where distance costs nothing.
    pub fn fixed_cost_in_distance(self) -> f64
        ensures { result ≡ fixed_cost_in_distance self }
    {
        if self.cost_per_distance > 0.0 {
            return self.fixed_cost / self.cost_per_distance;
        }
        0.0
    }
}

// The driver's break: it starts from earliest to latest and takes duration.
#[derive(Clone, Copy)]
pub struct VehicleBreak {
    pub earliest: f64,
    pub latest: f64,
    pub duration: f64,
}

// What a van allows a list besides its capacity: its limits and its break, where it has them.
#[derive(Clone, Copy)]
pub struct RouteLimits {
    pub max_distance: Option<f64>,
    pub max_duration: Option<f64>,
    pub rest: Option<VehicleBreak>,
}

fn rest_of(van: Van) -> Option<VehicleBreak>
    ensures { result ≡ rest_of van }
{
    flag2(van.flags).then_some(VehicleBreak {
        earliest: van.earliest,
        latest: van.latest,
        duration: van.duration,
    })
}

#[tactic(auto, unfolding(crate::specs::Vehicle::keeps))]
fn keeps_limit(limit: Option<f64>, x: f64) -> bool
    ensures { result ≡ keeps limit x }
{
    limit.is_none_or(|most| x <= most)
}

impl RouteLimits {
    // The limits that a van sets.
    #[tactic(auto, unfolding(crate::specs::Vehicle::limits_of))]
    pub fn of(van: Van) -> RouteLimits
        ensures { result ≡ limits_of van }
    {
        RouteLimits {
            max_distance: flag0(van.flags).then_some(van.max_distance),
            max_duration: flag1(van.flags).then_some(van.max_duration),
            rest: rest_of(van),
        }
    }

    // Whether a list of this distance that is back at this time keeps both limits.
    #[tactic(auto, unfolding(crate::specs::Vehicle::allows))]
    pub fn allow(self, distance: f64, duration: f64) -> bool
        ensures { result ≡ allows self distance duration }
    {
        keeps_limit(self.max_distance, distance) && keeps_limit(self.max_duration, duration)
    }

    // Whether nothing is set: no limit, no break.
    #[tactic(auto, unfolding(crate::specs::Vehicle::is_unlimited))]
    pub fn is_unlimited(self) -> bool
        ensures { result ≡ is_unlimited self }
    {
        self.max_distance.is_none() && self.max_duration.is_none() && self.rest.is_none()
    }
}
