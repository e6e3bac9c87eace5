// Which stops a move touches, by position, and the sum that the deltas within a list and across lists share: a way by a piece, less the direct leg.

#![tactic(auto)]

ghost use Rattle.std.specs.Prelude.{◌≡◌, ◌<◌, ◌≤◌, length, get_or};
ghost use Rattle.day.specs.Legs.{leg_of};
ghost use Rattle.deltas.specs.Changes.{Placed, detour};
ghost use Rattle.deltas.specs.Deltas.{stop_at, stop_before, around, ends_of};

use day::matrix::Matrix;
use deltas::Ends;
use edits::wide;

// The visit at a position.
pub fn visit_at(list: &[u16], k: usize) -> usize
    requires { k < length list.now }
    ensures { result ≡ get_or list.now k 0 }
{
    wide(list[k])
}

// The stop at a position.
pub fn stop_at(depot: usize, list: &[u16], k: usize) -> usize
    ensures { result ≡ stop_at depot list.now k }
{
    if k < list.len() {
        return visit_at(list, k);
    }
    depot
}

// The stop before a position.
fn stop_before(depot: usize, list: &[u16], k: usize) -> usize
    requires { k ≤ length list.now }
    ensures { result ≡ stop_before depot list.now k }
{
    if k == 0 {
        return depot;
    }
    visit_at(list, k - 1)
}

// The stops around the visits from `first` up to `end`.
pub fn around(depot: usize, list: &[u16], first: usize, end: usize) -> Ends
    requires { first ≤ length list.now }
    ensures { result ≡ around depot list.now first end }
{
    let from = stop_before(depot, list, first);
    let to = stop_at(depot, list, end);
    Ends { from, to }
}

// The first and the last of these visits.
pub fn ends_of(depot: usize, list: &[u16], first: usize, end: usize) -> Ends
    requires { end ≤ length list.now }
    ensures { result ≡ ends_of depot list.now first end }
{
    let from = stop_at(depot, list, first);
    let to = stop_before(depot, list, end);
    Ends { from, to }
}

// From a stop to a stop by way of a piece, less the direct leg.
pub fn detour(matrix: &Matrix, around: Ends, piece: Ends) -> f64
    requires { Placed matrix.now.size around × Placed matrix.now.size piece }
    ensures { result ≡ detour (leg_of matrix.now) around piece }
{
    matrix.get(around.from, piece.from) + matrix.get(piece.to, around.to)
        - matrix.get(around.from, around.to)
}
