// What a candidate costs with a break to take. It shares its first visits with the list that it changes: it is driven from a head of them on, and hands back
// the head of all of them, from which the next candidate is driven.

#![tactic(auto)]

ghost use Rattle.std.specs.Prelude.{◌≡◌, ◌≤◌, length};
ghost use Rattle.std.proofs.Math.Seq.{slice};
ghost use Rattle.fleet.specs.Fleet.{Driven};
ghost use Rattle.evaluation.specs.Route.{evaluated};
ghost use Rattle.broken_heads.specs.Head.{HeadOf};
ghost use Rattle.cross_moves.specs.CrossDepot.{price_of, priced_as, amount, replaced};
ghost use Rattle.loads.specs.Loads.{Two};
ghost use Rattle.cross_broken_prices.specs.Broken.{Broken};
ghost use Rattle.labels.specs.Lent.{lent};

use break_clock::Scheduled;
use broken_heads::BrokenHead;
use cross_broken_drives::drive_candidate;
use day::vehicle::{RouteLimits, Van, VehicleBreak};
use labels::columns::Columns;
use numbers::infinite;

// What a candidate costs, and the head of the visits before its stretch.
#[derive(Clone, Copy)]
pub struct Priced {
    pub head: BrokenHead,
    pub cost: f64,
}

// What a list that ends so costs, infinite where the van doesn't allow it.
fn end_cost(van: Van, limits: RouteLimits, outcome: Option<Scheduled>) -> f64
    ensures { result ≡ amount (price_of van (evaluated limits outcome)) }
{
    let Some(end) = outcome else {
        return infinite();
    };
    if limits.allow(end.distance, end.duration) {
        return van.route_cost(end.distance + end.lateness_cost);
    }
    infinite()
}

// What a list with a stretch of another in the place of its own costs with a break to take, driven from a head that ends at the stretch or before it.
pub fn broken_candidate(
    columns: &Columns,
    van: Van,
    limits: RouteLimits,
    rest: VehicleBreak,
    head: BrokenHead,
    driven: usize,
    list: &[u16],
    from: usize,
    to: usize,
    other: &[u16],
    other_from: usize,
    other_to: usize,
) -> Priced
    requires driven { Driven columns.now.locations van × Two columns.now.locations list.now other.now }
    requires broken { Broken van limits rest × HeadOf (lent columns.now) rest van.depot list.now driven head }
    requires driven_le_from { (driven ≤ from) × (from ≤ to) × (to ≤ length list.now) × (other_from ≤ other_to) × (other_to ≤ length other.now) }
    ensures head_of { HeadOf (lent columns.now) rest van.depot list.now from result.head }
    ensures cost_value { result.cost ≡ amount (priced_as (lent columns.now) van (replaced list.now from to (slice other_from other_to other.now))) }
{
    let drive = drive_candidate(
        columns, head, driven, list, from, to, other, other_from, other_to,
    );
    let kept = drive.head;
    if from + (other_to - other_from) + (list.len() - to) == 0 {
        return Priced {
            head: kept,
            cost: 0.0,
        };
    }
    let end = drive.end;
    let depot = van.depot;
    let distance = end.distance + columns.distance(end.place, depot);
    let clock = end.clock();
    let back = columns.travel_time(clock.prev, depot);
    let outcome = clock.finish(distance, back);
    Priced {
        head: kept,
        cost: end_cost(van, limits, outcome),
    }
}
