// The deltas of tail exchange and relocate in f64, bit for bit as the Rust works them out (exchange.rs, relocate.rs). A function over a list reads its stops
// and hands them to a sum.

#![tactic(auto)]

ghost use Rattle.std.specs.Prelude.{◌≡◌, ◌<◌, ◌≤◌, length};
ghost use Rattle.day.specs.Legs.{leg_of};
ghost use Rattle.deltas.specs.Changes.{Placed, removal_cost, fixed_if, tails_change};
ghost use Rattle.deltas.specs.Deltas.{Listed, exchange_delta, removal_delta, insertion_cost, insertion_delta};

use day::matrix::Matrix;
use deltas::Ends;
use stops::{around, detour, stop_at};

// The tails behind two legs, in two lists, exchanged.
pub fn tails_change(matrix: &Matrix, one: Ends, other: Ends) -> f64
    requires { Placed matrix.now.size one × Placed matrix.now.size other }
    ensures { result ≡ tails_change (leg_of matrix.now) one other }
{
    let old_edge1 = matrix.get(one.from, one.to);
    let old_edge2 = matrix.get(other.from, other.to);
    let new_edge1 = matrix.get(one.from, other.to);
    let new_edge2 = matrix.get(other.from, one.to);
    (new_edge1 + new_edge2) - (old_edge1 + old_edge2)
}

// Tail exchange: list `one` cut before position `cut1`, list `other` before `cut2`.
pub fn exchange_delta(
    matrix: &Matrix,
    depot: usize,
    one: &[u16],
    other: &[u16],
    cut1: usize,
    cut2: usize,
) -> f64
    requires listed { Listed matrix.now.size depot one.now × Listed matrix.now.size depot other.now }
    requires cut1_in_bounds { (cut1 ≤ length one.now) × (cut2 ≤ length other.now) }
    ensures { result ≡ exchange_delta (leg_of matrix.now) depot one.now other.now cut1 cut2 }
{
    let edge1 = around(depot, one, cut1, cut1);
    let edge2 = around(depot, other, cut2, cut2);
    tails_change(matrix, edge1, edge2)
}

// The direct leg, less the two by way of a visit.
pub fn removal_cost(matrix: &Matrix, around: Ends, visit: usize) -> f64
    requires { Placed matrix.now.size around × (visit < matrix.now.size) }
    ensures { result ≡ removal_cost (leg_of matrix.now) around visit }
{
    matrix.get(around.from, around.to)
        - matrix.get(around.from, visit)
        - matrix.get(visit, around.to)
}

// A fixed cost that counts, or does not.
pub fn fixed_if(counts: bool, fixed: f64) -> f64
    ensures { result ≡ fixed_if counts fixed }
{
    if counts {
        return fixed;
    }
    0.0
}

// Relocate: the visit at a position taken out; the fixed cost is saved where it is the only one.
pub fn removal_delta(
    matrix: &Matrix,
    depot: usize,
    fixed: f64,
    list: &[u16],
    position: usize,
) -> f64
    requires { Listed matrix.now.size depot list.now × (position < length list.now) }
    ensures { result ≡ removal_delta (leg_of matrix.now) depot fixed list.now position }
{
    let stops = around(depot, list, position, position + 1);
    let visit = stop_at(depot, list, position);
    removal_cost(matrix, stops, visit) - fixed_if(list.len() == 1, fixed)
}

// Relocate: a visit put in at a place.
pub fn insertion_cost(
    matrix: &Matrix,
    depot: usize,
    list: &[u16],
    visit: usize,
    place: usize,
) -> f64
    requires { Listed matrix.now.size depot list.now × (visit < matrix.now.size) × (place ≤ length list.now) }
    ensures { result ≡ insertion_cost (leg_of matrix.now) depot list.now visit place }
{
    let stops = around(depot, list, place, place);
    detour(
        matrix,
        stops,
        Ends {
            from: visit,
            to: visit,
        },
    )
}

// The same, and the fixed cost where the list is empty.
pub fn insertion_delta(
    matrix: &Matrix,
    depot: usize,
    fixed: f64,
    list: &[u16],
    visit: usize,
    place: usize,
) -> f64
    requires { Listed matrix.now.size depot list.now × (visit < matrix.now.size) × (place ≤ length list.now) }
    ensures { result ≡ insertion_delta (leg_of matrix.now) depot fixed list.now visit place }
{
    insertion_cost(matrix, depot, list, visit, place) + fixed_if(list.len() == 0, fixed)
}
