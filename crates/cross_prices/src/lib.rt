// What a list costs with its van (`priced` of local_search/cross_depot.rs).

#![tactic(auto)]

ghost use Rattle.std.specs.Prelude.{◌≡◌, ◌+◌, ◌≤◌, length, take};
ghost use Rattle.std.proofs.Math.Seq.{slice};
ghost use Rattle.labels.specs.Columns.{Visits};
ghost use Rattle.labels.specs.Lent.{lent};
ghost use Rattle.fleet.specs.Fleet.{Driven};
ghost use Rattle.cross_moves.specs.CrossDepot.{price_of, priced_as, replaced};
ghost use Rattle.loads.specs.Loads.{Two};

use buffers::append_stretch;
use day::vehicle::{RouteLimits, Van};
use evaluation::route::{RouteEval, route_eval};
use labels::columns::Columns;

// The price of an evaluated list.
fn price_of(van: Van, evaluation: Option<RouteEval>) -> Option<f64>
    ensures { result ≡ price_of van evaluation }
{
    match evaluation {
        None => None,
        Some(e) => Some(van.route_cost(e.priced_distance())),
    }
}

// What a list costs with its van; an empty one costs nothing.
fn priced(columns: &Columns, van: Van, list: &[u16]) -> Option<f64>
    requires { Driven columns.now.locations van × Visits columns.now.locations list.now }
    ensures { result ≡ priced_as (lent columns.now) van list.now }
{
    if list.len() == 0 {
        return Some(0.0);
    }
    let limits = RouteLimits::of(van);
    let evaluation = route_eval(columns, limits, van.depot, list);
    price_of(van, evaluation)
}

// Builds a list with a stretch of another in the place of its own, at the front of the buffer.
fn replaced_into(
    buffer: &mut [u16],
    list: &[u16],
    from: usize,
    to: usize,
    other: &[u16],
    other_from: usize,
    other_to: usize,
) -> usize
    requires from_le_to { (from ≤ to) × (to ≤ length list.now) × (other_from ≤ other_to) × (other_to ≤ length other.now) }
    requires other_in_bounds { length list.now + length other.now ≤ length buffer.old }
    ensures upper_bound { result ≤ length buffer.new }
    ensures buffer_after { take result buffer.new ≡ replaced list.now from to (slice other_from other_to other.now) }
{
    let head = append_stretch(buffer, 0, list, 0, from);
    let middle = append_stretch(buffer, head, other, other_from, other_to);
    append_stretch(buffer, middle, list, to, list.len())
}

// The price of a list with a stretch of another in the place of its own, whatever its load.
pub fn replaced_price(
    columns: &Columns,
    van: Van,
    list: &[u16],
    from: usize,
    to: usize,
    other: &[u16],
    other_from: usize,
    other_to: usize,
) -> Option<f64>
    requires driven { Driven columns.now.locations van }
    requires two { Two columns.now.locations list.now other.now × (from ≤ to) × (to ≤ length list.now) }
    requires other_from_le_other_to { (other_from ≤ other_to) × (other_to ≤ length other.now) }
    ensures { result ≡ priced_as (lent columns.now) van (replaced list.now from to (slice other_from other_to other.now)) }
{
    let mut buffer = [0u16; 64];
    let end = replaced_into(&mut buffer, list, from, to, other, other_from, other_to);
    priced(columns, van, &buffer[0..end])
}
