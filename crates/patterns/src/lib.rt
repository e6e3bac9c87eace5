// Ports parts of local_search/three_opt.rs: at a place the least of the seven patterns that counts and passes, ties to the lower pattern.
//
// The Rust sorts the patterns that count and takes the first that passes. Here they are scanned in order, as ways, and one is tested only where its delta is
// below the best that passed so far: the same answer, and where none passes, which is where a search spends its time, the same tests. Before that scan
// it is asked whether any counts.

#![tactic(auto)]

ghost use Rattle.std.specs.Prelude.{◌≡◌, [], ◌∷◌, ◌<◌, ◌≤◌, length};
ghost use Rattle.day.specs.Legs.{leg_of};
ghost use Rattle.labels.specs.Columns.{leg_in, Visits};
ghost use Rattle.labels.specs.Lent.{lent};
ghost use Rattle.descent.specs.Search.{taken};
ghost use Rattle.descent.specs.Within.{reconnect};
ghost use Rattle.deltas.specs.Changes.{Placed};
ghost use Rattle.deltas.specs.Deltas.{cut_at};
ghost use Rattle.engine.specs.Engine.{passing};
ghost use Rattle.reconnections.specs.Reconnections.{Inside, cut_of, reconnection};
ghost use Rattle.engine.specs.Best.{found_as};
ghost use Rattle.patterns.specs.Patterns.{search_of, judge_of, Prepared, nth_candidate, Known, Among};
ghost use Rattle.patterns.specs.Below.{any_below};

use day::matrix::Matrix;
use day::vehicle::RouteLimits;
use deltas::Cut;
use deltas_three_opt::{cut_at, pattern_change};
use engine::best::Best;
use evaluation::route::route_feasible;
use labels::columns::Columns;
use layouts::{Way, nth_way};
use reconnections::{Place, reconnected_into};

// What is worked out once before the first move.
#[derive(Clone, Copy)]
pub struct Setup {
    pub depot: usize,
    pub limits: RouteLimits,
    // The least gain that counts.
    pub floor: f64,
    // Whether each distance equals its mirror.
    pub symmetric: bool,
    // Whether candidates have to be checked.
    pub needed: bool,
}

// Whether the list reconnected in a way passes. Where no check is needed it is not built.
fn candidate_passes(
    setup: Setup,
    columns: &Columns,
    list: &[u16],
    buffer: &mut [u16],
    place: Place,
    way: Way,
) -> bool
    requires prepared { Prepared setup (lent columns.now) }
    requires visits { Visits columns.now.locations list.now × (length list.now ≤ length buffer.old) }
    requires inside { Inside (length list.now) place }
    ensures { result ≡ passing setup.needed (lent columns.now) setup.limits setup.depot (reconnect list.now (reconnection place way)) }
{
    if !setup.needed {
        return true;
    }
    let end = reconnected_into(buffer, list, place, way);
    let limits = setup.limits;
    route_feasible(columns, limits, setup.depot, &buffer[0..end])
}

// The better of the best way so far and the one of a number.
fn better_of(
    setup: Setup,
    columns: &Columns,
    list: &[u16],
    buffer: &mut [u16],
    place: Place,
    cut: Cut,
    best: Best<Way>,
    number: usize,
) -> Best<Way>
    requires prepared { Prepared setup (lent columns.now) }
    requires visits { Visits columns.now.locations list.now × (length list.now ≤ length buffer.old) }
    requires inside { Inside (length list.now) place × (number < 7) }
    requires cut_value { cut ≡ cut_at (leg_in (lent columns.now)) setup.depot list.now place.i place.j place.k }
    requires known { Known (lent columns.now) setup list.now place best }
    ensures { Among (lent columns.now) setup list.now place best (nth_candidate place number ∷ []) result }
{
    let way = nth_way(number);
    let delta = pattern_change(
        &columns.matrix(),
        cut,
        way.exchanged,
        way.b_turned,
        way.c_turned,
    );
    if !(delta < best.bound) {
        return best;
    }
    if !candidate_passes(setup, columns, list, buffer, place, way) {
        return best;
    }
    Best {
        bound: delta,
        found: Some(way),
    }
}

// Whether one of the seven patterns is below a bar. At most places none is, so all are asked at once, by constants and with no branch between them: a loop
// over the ways is slower.
fn any_below(matrix: &Matrix, cut: Cut, bar: f64) -> bool
    requires { Placed matrix.now.size cut.around × Placed matrix.now.size cut.b × Placed matrix.now.size cut.c }
    ensures { result ≡ any_below (leg_of matrix.now) cut bar }
{
    let one = pattern_change(matrix, cut, false, false, true) < bar;
    let two = pattern_change(matrix, cut, false, true, false) < bar;
    let three = pattern_change(matrix, cut, false, true, true) < bar;
    let four = pattern_change(matrix, cut, true, false, false) < bar;
    let five = pattern_change(matrix, cut, true, true, false) < bar;
    let six = pattern_change(matrix, cut, true, false, true) < bar;
    let seven = pattern_change(matrix, cut, true, true, true) < bar;
    one | (two | (three | (four | (five | (six | seven)))))
}

// The way to take at a place.
pub fn best_pattern(
    setup: Setup,
    columns: &Columns,
    list: &[u16],
    buffer: &mut [u16],
    place: Place,
) -> Option<Way>
    requires prepared { Prepared setup (lent columns.now) }
    requires visits { Visits columns.now.locations list.now × (length list.now ≤ length buffer.old) }
    requires inside { Inside (length list.now) place }
    ensures { let c = lent columns.now
        in found_as (reconnection place) result ≡ taken (search_of c setup.limits setup.depot) (judge_of c setup.depot) list.now (cut_of place) }
{
    let matrix = columns.matrix();
    let cut = cut_at(
        &matrix,
        setup.symmetric,
        setup.depot,
        list,
        place.i,
        place.j,
        place.k,
    );
    let bar = -setup.floor;
    if !any_below(&matrix, cut, bar) {
        return None;
    }
    let mut best = Best::below(bar);
    for number in 0..7 {
        best = better_of(setup, columns, list, buffer, place, cut, best, number);
    }
    best.found
}
