// evaluation/mod.rs: whether a list passes, what it costs, and whether a search has to ask.
ghost use Rattle.std.specs.Prelude.{◌≡◌, ◌<◌};
ghost use Rattle.labels.specs.Columns.{Visits};
ghost use Rattle.labels.specs.Lent.{lent};
ghost use Rattle.evaluation.specs.Route.{outcome, evaluated, feasible, eval, priced_distance, cost_of, effective_cost, checks_needed};

use crate::clocked::clocked_feasible;
use crate::drive::Drive;
use crate::unclocked::{is_clockless, unclocked_distance};
use break_clock::{Scheduled, schedule};
use day::vehicle::{RouteLimits, VehicleBreak};
use day_scans::customer::has_time_windows;
use labels::columns::Columns;
use numbers::infinite;

// What a list that passes comes to.
#[derive(Clone, Copy)]
pub struct RouteEval {
    // Depot to depot.
    pub distance: f64,
    // The return to the depot, on the clock that starts at 0.
    pub duration: f64,
    // Time late at soft windows.
    pub lateness: f64,
    // That lateness, times each visit's penalty.
    pub lateness_cost: f64,
}

impl RouteEval {
    // The distance at which the list is priced.
    pub fn priced_distance(self) -> f64
        ensures { result ≡ priced_distance self }
    {
        self.distance + self.lateness_cost
    }
}

// The clock of a list, with the break where there is one.
pub fn outcome_of(
    columns: &Columns,
    rest: Option<VehicleBreak>,
    depot: usize,
    list: &[u16],
) -> Option<Scheduled>
    requires { (depot < columns.now.locations) × Visits columns.now.locations list.now }
    ensures { result ≡ outcome (lent columns.now) rest depot list.now }
{
    match rest {
        None => Drive::begin(depot).home(columns, depot, list),
        Some(pause) => schedule(columns, pause, depot, list),
    }
}

#[tactic(auto, unfolding(crate::specs::Route::evaluated))]
fn evaluate(limits: RouteLimits, outcome: Option<Scheduled>) -> Option<RouteEval>
    ensures { result ≡ evaluated limits outcome }
{
    let s = outcome?;
    limits.allow(s.distance, s.duration).then_some(RouteEval {
        distance: s.distance,
        duration: s.duration,
        lateness: s.lateness,
        lateness_cost: s.lateness_cost,
    })
}

// Whether a list passes: every hard window is kept, the break is placed, and both limits are kept. Capacity is not checked here.
// Where nothing but the distance can fail, only that is added up.
pub fn route_feasible(columns: &Columns, limits: RouteLimits, depot: usize, list: &[u16]) -> bool
    requires { (depot < columns.now.locations) × Visits columns.now.locations list.now }
    ensures { result ≡ feasible (lent columns.now) limits depot list.now }
{
    if is_clockless(limits) {
        let free = unclocked_distance(&columns.matrix(), columns.flags, depot, list);
        if let Some(distance) = free {
            return limits.allow(distance, 0.0);
        }
    }
    clocked_feasible(columns, limits, depot, list)
}

// The distance, duration and lateness of a list that passes. None where a hard window can't be kept, the break can't be placed, or a limit is broken.
pub fn route_eval(
    columns: &Columns,
    limits: RouteLimits,
    depot: usize,
    list: &[u16],
) -> Option<RouteEval>
    requires { (depot < columns.now.locations) × Visits columns.now.locations list.now }
    ensures { result ≡ eval (lent columns.now) limits depot list.now }
{
    let rest = limits.rest;
    // As in clocked_feasible.
    match rest {
        None => {
            let driven = Drive::begin(depot).home(columns, depot, list);
            evaluate(limits, driven)
        }
        Some(_) => {
            let outcome = outcome_of(columns, rest, depot, list);
            evaluate(limits, outcome)
        }
    }
}

#[tactic(auto, unfolding(crate::specs::Route::cost_of))]
fn cost_of(evaluation: Option<RouteEval>) -> f64
    ensures { result ≡ cost_of evaluation }
{
    evaluation.map_or(infinite(), |e| e.priced_distance())
}

// What a list costs that ends so: the priced distance, infinite where it fails.
pub fn price(limits: RouteLimits, outcome: Option<Scheduled>) -> f64
    ensures { result ≡ cost_of (evaluated limits outcome) }
{
    cost_of(evaluate(limits, outcome))
}

// What a search with soft windows minimises: the priced distance, infinite where the list fails.
pub fn effective_cost(columns: &Columns, limits: RouteLimits, depot: usize, list: &[u16]) -> f64
    requires { (depot < columns.now.locations) × Visits columns.now.locations list.now }
    ensures { result ≡ effective_cost (lent columns.now) limits depot list.now }
{
    let rest = limits.rest;
    let outcome = outcome_of(columns, rest, depot, list);
    price(limits, outcome)
}

// Whether a search has to check its candidates at all: only where a location has a window or the van sets a limit.
#[tactic(auto, unfolding(crate::specs::Route::checks_needed))]
pub fn route_checks_needed(flags: &[u8], limits: RouteLimits) -> bool
    ensures { result ≡ checks_needed flags.now limits }
{
    has_time_windows(flags) || !limits.is_unlimited()
}
