// A row of moves between two lists decided by tables: which moves are open, what their lists cost, and the first least delta (the innermost loops of
// `best_move` of local_search/cross_depot.rs).

#![tactic(auto)]

ghost use Rattle.std.specs.Prelude.{◌≡◌, ◌*◌, ◌≤◌, ◌<◌, length};
ghost use Rattle.fleet.specs.Fleet.{Driven};
ghost use Rattle.cross_moves.specs.Boxes.{Prefixed};
ghost use Rattle.loads.specs.Loads.{Two, Loaded};
ghost use Rattle.cross_rows.specs.Row.{Rowed};
ghost use Rattle.cross_choices.specs.Rows.{mark_of, Marked, all_shut, Extended, lesser_of, least_of, chosen_by, chosen_by_block};

use cross_kinds::kind::{Kind, Rows};
use cross_moves::pair::{Move, Pair};
use cross_moves::side::Side;
use cross_rows::Stretch;
use numbers::infinite;

// The best move so far, with its delta and what its two lists cost. `found` is 1 where there is one, a whole word as in `Move`; else it is 0, and the delta is
// minus the floor.
#[derive(Clone, Copy)]
pub struct Choice {
    pub found: usize,
    pub chosen: Move,
    pub delta: f64,
    pub cost1: f64,
    pub cost2: f64,
}

// The first least delta of a row so far, and which move has it; at first what it has to be below, and the number of moves.
// No Option, and no type in common with `Choice`, for speed: the loop over a row carries two words.
#[derive(Clone, Copy)]
pub struct Least {
    pub at: usize,
    pub delta: f64,
}

// ---- which moves of a row are open

// 0 where both loads are within their vans' capacities, infinite where one is not.
#[tactic(auto, unfolding(crate::specs::Rows::mark_of))]
fn mark(tested: bool, first: bool, second: bool) -> f64
    ensures { result ≡ mark_of tested first second }
{
    if (!tested || first) && second {
        return 0.0;
    }
    infinite()
}

// Marks the first `count` moves of a row.
pub fn mark_row(
    l: usize,
    demand: &[i32],
    one: &Side,
    other: &Side,
    tested: bool,
    own: Stretch,
    others: Stretch,
    count: usize,
    marks: &mut [f64],
)
    requires loaded { Loaded l demand.now × (Driven l one.now.van × Driven l other.now.van) × Two l one.now.list.now other.now.list.now }
    requires prefixed { Prefixed demand.now one.now.list.now one.now.loads.now.sums
        × Prefixed demand.now other.now.list.now other.now.loads.now.sums }
    requires rowed { Rowed (length one.now.list.now) (length other.now.list.now) own others count × (count ≤ length marks.old) }
    ensures { Marked demand.now one.now.van other.now.van one.now.list.now other.now.list.now tested own others count marks.new }
{
    for j in 0..count {
        let from1 = own.start_at(j);
        let to1 = own.end_at(j);
        let from2 = others.start_at(j);
        let to2 = others.end_at(j);
        let first = one.fits(l, demand, from1, to1, other, from2, to2);
        let second = other.fits(l, demand, from2, to2, one, from1, to1);
        marks[j] = mark(tested, first, second);
    }
}

// Whether none of the first `count` moves is open.
pub fn is_shut(marks: &[f64; 64], count: usize) -> bool
    requires { count ≤ 64 }
    ensures { result ≡ all_shut marks.now count }
{
    (0..count).all(|k| !(marks[k] < infinite()))
}

// ---- the least of a row

// The first list's cost of the first move, for the moves from `from` on as well.
pub fn extend(costs: &mut [f64], from: usize, count: usize)
    requires { (count ≤ length costs.old) × (count ≤ 64) }
    ensures { Extended costs.old costs.new from count }
{
    for j in from..count {
        costs[j] = costs[0];
    }
}

// The lesser of the least so far and the delta of move j.
#[tactic(auto, unfolding(crate::specs::Rows::lesser_of))]
fn lesser(least: Least, j: usize, delta: f64) -> Least
    ensures { result ≡ lesser_of j delta least }
{
    if delta < least.delta {
        return Least { at: j, delta };
    }
    least
}

// The first least delta of a row that is below `most`.
pub fn least_of(
    before: f64,
    count: usize,
    costs1: &[f64; 64],
    costs2: &[f64; 64],
    most: f64,
) -> Least
    requires { count ≤ 64 }
    ensures { result ≡ least_of before count costs1.now costs2.now most }
{
    let mut least = Least {
        at: count,
        delta: most,
    };
    for j in 0..count {
        least = lesser(least, j, costs1[j] + costs2[j] - before);
    }
    least
}

// The move that has the least delta of its rows, or the best so far where none is less.
pub fn choose_of_block(
    rows: Rows,
    pair: &Pair,
    n1: usize,
    n2: usize,
    count: usize,
    costs1: &[f64; 64],
    costs2: &[f64; 64],
    least: Least,
    best: Choice,
) -> Choice
    requires { (rows.first ≤ 63) × (least.at ≤ count) × (count ≤ 64) × (count ≤ 64 * rows.width) }
    ensures { result ≡ chosen_by_block rows.kind pair.now n1 n2 rows.first rows.width count costs1.now costs2.now least best }
{
    let at = least.at;
    if at == count {
        return best;
    }
    let width = rows.width;
    let chosen = rows
        .kind
        .at(pair, n1, n2, rows.first + at / width, at % width);
    Choice {
        found: 1,
        chosen,
        delta: least.delta,
        cost1: costs1[at],
        cost2: costs2[at],
    }
}

// The move that has the least delta of its row, or the best so far where none is less.
pub fn choose(
    kind: Kind,
    pair: &Pair,
    n1: usize,
    n2: usize,
    k: usize,
    count: usize,
    costs1: &[f64; 64],
    costs2: &[f64; 64],
    least: Least,
    best: Choice,
) -> Choice
    requires { (k ≤ 63) × (least.at ≤ count) × (count ≤ 64) }
    ensures { result ≡ chosen_by kind pair.now n1 n2 k count costs1.now costs2.now least best }
{
    let row = Rows {
        kind,
        first: k,
        width: 64,
        count: 1,
    };
    choose_of_block(row, pair, n1, n2, count, costs1, costs2, least, best)
}
