// Whether a list passes, by its clock. How late the van is at a soft window isn't asked, so that the compiler leaves it out of the drive.
ghost use Rattle.std.specs.Prelude.{◌≡◌, ◌<◌};
ghost use Rattle.labels.specs.Columns.{Visits};
ghost use Rattle.labels.specs.Lent.{lent};
ghost use Rattle.evaluation.specs.Route.{allowed, feasible};

use crate::drive::Drive;
use crate::route::outcome_of;
use break_clock::Scheduled;
use day::vehicle::RouteLimits;
use labels::columns::Columns;

// Whether a list that ends so passes.
#[tactic(auto, unfolding(crate::specs::Route::allowed))]
pub fn is_allowed(limits: RouteLimits, outcome: Option<Scheduled>) -> bool
    ensures { result ≡ allowed limits outcome }
{
    outcome.is_some_and(|s| limits.allow(s.distance, s.duration))
}

// Whether a list passes, with the break where there is one.
pub fn clocked_feasible(columns: &Columns, limits: RouteLimits, depot: usize, list: &[u16]) -> bool
    requires { (depot < columns.now.locations) × Visits columns.now.locations list.now }
    ensures { result ≡ feasible (lent columns.now) limits depot list.now }
{
    let rest = limits.rest;
    // Asked here and in route_eval, and not once in outcome_of: what a drive answers would go through memory beside the break's call (PROOFS, Speed).
    match rest {
        None => {
            let driven = Drive::begin(depot).home(columns, depot, list);
            is_allowed(limits, driven)
        }
        Some(_) => {
            let outcome = outcome_of(columns, rest, depot, list);
            is_allowed(limits, outcome)
        }
    }
}
