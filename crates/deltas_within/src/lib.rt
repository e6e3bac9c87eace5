// The deltas of 2-opt and Or-opt in f64, bit for bit as the Rust works them out (two_opt.rs, or_opt.rs), and what turning a piece changes inside it. A function
// over a list reads its stops and hands them to a sum.

#![tactic(auto)]

ghost use Rattle.std.specs.Prelude.{◌≡◌, ◌+◌, ◌<◌, ◌≤◌, length};
ghost use Rattle.std.proofs.Math.Seq.{slice};
ghost use Rattle.numbers.specs.Operations.{◌⊕◌, ◌⊖◌};
ghost use Rattle.day.specs.Legs.{leg_of};
ghost use Rattle.deltas.specs.Changes.{Placed, reversal_delta, turn_change};
ghost use Rattle.deltas.specs.Deltas.{Visits, Listed, Marked, two_opt_delta, removal_gain, piece_insertion};

use day::matrix::Matrix;
use deltas::Ends;
use stops::{around, detour, ends_of, visit_at};

// One leg of a turned piece: the way back less the way there.
fn turned_leg(matrix: &Matrix, x: usize, y: usize, sum: f64) -> f64
    requires { (x < matrix.now.size) × (y < matrix.now.size) }
    ensures { result ≡ sum ⊕ (leg_of matrix.now y x ⊖ leg_of matrix.now x y) }
{
    sum + (matrix.get(y, x) - matrix.get(x, y))
}

// What turning the visits from `first` to `last` changes in the legs between them, added up from the first on.
fn turned_legs(matrix: &Matrix, list: &[u16], first: usize, last: usize) -> f64
    requires listed { Visits matrix.now.size list.now }
    requires first_le_last { (first ≤ last) × (last < length list.now) }
    ensures { result ≡ reversal_delta (leg_of matrix.now) (slice first (last + 1) list.now) }
{
    let mut sum = 0.0;
    for k in first..last {
        let x = visit_at(list, k);
        let y = visit_at(list, k + 1);
        sum = turned_leg(matrix, x, y, sum);
    }
    sum
}

// The same, and nothing where the table's symmetry is marked: there each leg is as long as its way back.
pub fn reversal_delta(
    matrix: &Matrix,
    symmetric: bool,
    list: &[u16],
    first: usize,
    last: usize,
) -> f64
    requires listed { Marked matrix.now.size matrix.now.entries.now symmetric × Visits matrix.now.size list.now }
    requires first_le_last { (first ≤ last) × (last < length list.now) }
    ensures { result ≡ reversal_delta (leg_of matrix.now) (slice first (last + 1) list.now) }
{
    if symmetric {
        return 0.0;
    }
    turned_legs(matrix, list, first, last)
}

// A piece turned round; `inside` is what that changes in its own legs.
pub fn turn_change(matrix: &Matrix, around: Ends, piece: Ends, inside: f64) -> f64
    requires { Placed matrix.now.size around × Placed matrix.now.size piece }
    ensures { result ≡ turn_change (leg_of matrix.now) around piece inside }
{
    let old_cost = matrix.get(around.from, piece.from) + matrix.get(piece.to, around.to);
    let new_cost = matrix.get(around.from, piece.to) + matrix.get(piece.from, around.to);
    new_cost - old_cost + inside
}

// 2-opt: the visits from `first` to `last` turned round.
pub fn two_opt_delta(
    matrix: &Matrix,
    symmetric: bool,
    depot: usize,
    list: &[u16],
    first: usize,
    last: usize,
) -> f64
    requires listed { Marked matrix.now.size matrix.now.entries.now symmetric × Listed matrix.now.size depot list.now }
    requires first_le_last { (first ≤ last) × (last < length list.now) }
    ensures { result ≡ two_opt_delta (leg_of matrix.now) depot list.now first last }
{
    let stops = around(depot, list, first, last + 1);
    let piece = ends_of(depot, list, first, last + 1);
    let inside = reversal_delta(matrix, symmetric, list, first, last);
    turn_change(matrix, stops, piece, inside)
}

// Or-opt: the piece of `size` visits at `from` taken out.
pub fn removal_gain(matrix: &Matrix, depot: usize, list: &[u16], size: usize, from: usize) -> f64
    requires listed { Listed matrix.now.size depot list.now }
    requires size_in_bounds { from + size ≤ length list.now }
    ensures { result ≡ removal_gain (leg_of matrix.now) depot list.now size from }
{
    let stops = around(depot, list, from, from + size);
    let piece = ends_of(depot, list, from, from + size);
    detour(matrix, stops, piece)
}

// Or-opt: the same piece put in before the visit at `to`.
pub fn piece_insertion(
    matrix: &Matrix,
    depot: usize,
    list: &[u16],
    size: usize,
    from: usize,
    to: usize,
) -> f64
    requires listed { Listed matrix.now.size depot list.now }
    requires size_in_bounds { (from + size ≤ length list.now) × (to ≤ length list.now) }
    ensures { result ≡ piece_insertion (leg_of matrix.now) depot list.now size from to }
{
    let stops = around(depot, list, to, to);
    let piece = ends_of(depot, list, from, from + size);
    detour(matrix, stops, piece)
}
