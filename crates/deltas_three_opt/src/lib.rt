// The deltas of 3-opt in f64, bit for bit as the Rust works them out (three_opt.rs): the list cut in pieces, and two of these exchanged or turned round.

#![tactic(auto)]

ghost use Rattle.std.specs.Prelude.{◌≡◌, ◌<◌, length};
ghost use Rattle.day.specs.Legs.{leg_of};
ghost use Rattle.deltas.specs.Changes.{Placed, turned_if, plus_if, through, through_if, pattern_change};
ghost use Rattle.deltas.specs.Deltas.{Listed, Marked, cut_at};

use day::matrix::Matrix;
use deltas::{Cut, Ends};
use deltas_within::reversal_delta;
use stops::{around, ends_of};

// 3-opt: the list cut behind its visits i, j and k.
pub fn cut_at(
    matrix: &Matrix,
    symmetric: bool,
    depot: usize,
    list: &[u16],
    i: usize,
    j: usize,
    k: usize,
) -> Cut
    requires listed { Marked matrix.now.size matrix.now.entries.now symmetric × Listed matrix.now.size depot list.now }
    requires i_lt_j { (i < j) × (j < k) × (k < length list.now) }
    ensures { result ≡ cut_at (leg_of matrix.now) depot list.now i j k }
{
    let stops = around(depot, list, i + 1, k + 1);
    let b = ends_of(depot, list, i + 1, j + 1);
    let c = ends_of(depot, list, j + 1, k + 1);
    let b_inside = reversal_delta(matrix, symmetric, list, i + 1, j);
    let c_inside = reversal_delta(matrix, symmetric, list, j + 1, k);
    Cut {
        around: stops,
        b,
        c,
        b_inside,
        c_inside,
    }
}

// The three legs by way of one piece and another.
fn through(matrix: &Matrix, around: Ends, one: Ends, other: Ends) -> f64
    requires { Placed matrix.now.size around × Placed matrix.now.size one × Placed matrix.now.size other }
    ensures { result ≡ through (leg_of matrix.now) around one other }
{
    matrix.get(around.from, one.from)
        + matrix.get(one.to, other.from)
        + matrix.get(other.to, around.to)
}

// The same in order, or exchanged.
fn through_if(matrix: &Matrix, exchanged: bool, around: Ends, one: Ends, other: Ends) -> f64
    requires { Placed matrix.now.size around × Placed matrix.now.size one × Placed matrix.now.size other }
    ensures { result ≡ through_if (leg_of matrix.now) exchanged around one other }
{
    if exchanged {
        return through(matrix, around, other, one);
    }
    through(matrix, around, one, other)
}

// The ends of a piece as it is, or turned round.
fn turned_if(turned: bool, piece: Ends) -> Ends
    ensures { result ≡ turned_if turned piece }
{
    if turned {
        return Ends {
            from: piece.to,
            to: piece.from,
        };
    }
    piece
}

// What turning changes inside a piece, where it is turned.
fn plus_if(turned: bool, sum: f64, inside: f64) -> f64
    ensures { result ≡ plus_if turned sum inside }
{
    if turned {
        return sum + inside;
    }
    sum
}

// 3-opt: B and C exchanged or not, B turned or not, C turned or not, against the list as it is. Three bools, not layouts' `Way`: that lies above, where lists are
// laid out.
pub fn pattern_change(
    matrix: &Matrix,
    cut: Cut,
    exchanged: bool,
    b_turned: bool,
    c_turned: bool,
) -> f64
    requires { Placed matrix.now.size cut.around × Placed matrix.now.size cut.b × Placed matrix.now.size cut.c }
    ensures { result ≡ pattern_change (leg_of matrix.now) cut exchanged b_turned c_turned }
{
    let stops = cut.around;
    let b = cut.b;
    let c = cut.c;
    let new_b = turned_if(b_turned, b);
    let new_c = turned_if(c_turned, c);
    let legs = through_if(matrix, exchanged, stops, new_b, new_c);
    let with_b = plus_if(b_turned, legs, cut.b_inside);
    let cost = plus_if(c_turned, with_b, cut.c_inside);
    cost - through(matrix, stops, b, c)
}
