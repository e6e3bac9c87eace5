// A block of rows of moves between two lists, worked out in tables of 64 entries: as many rows as fit, one behind another. A row of short lists has few moves,
// and what a row costs by itself is then paid once a block (the inner loops of `best_move` of local_search/cross_depot.rs).

#![tactic(auto)]

ghost use Rattle.std.specs.Prelude.{◌≡◌, cond, ◌*◌, ◌+◌, ◌≤◌, ◌<◌, length};
ghost use Rattle.fleet.specs.Fleet.{Driven};
ghost use Rattle.kept_heads.specs.Kept.{Kept};
ghost use Rattle.cross_moves.specs.Boxes.{Prefixed};
ghost use Rattle.loads.specs.Loads.{Two, Loaded};
ghost use Rattle.cross_kinds.specs.Kinds.{tested_in, row_of, rows_in, width_of};
ghost use Rattle.cross_choices.specs.Rows.{Marked};
ghost use Rattle.cross_blocks.specs.Blocks.{Block, entries_in, side_of, CostedRow, CostedBlock, MarkedBlock};
ghost use Rattle.labels.specs.Lent.{lent};

use cross_choices::{extend, mark_row};
use cross_kinds::kind::{Kind, Row, Rows};
use cross_moves::side::Side;
use cross_rows::row_costs;
use labels::columns::Columns;

// ---- the size of a block

// How many of the rows that are left the tables have room for.
pub fn rows_at_once(width: usize, left: usize) -> usize
    requires { (width ≤ 64) × (0 < left) × (left ≤ 64) }
    ensures { (0 < result) × (result ≤ left) × (result * width ≤ 64) }
{
    if left * width <= 64 {
        return left;
    }
    64 / width
}

// How many entries a block has: the last row may be shorter than the others.
pub fn entries_of(rows: Rows, n1: usize, n2: usize) -> usize
    requires { Block rows.kind n1 n2 rows.first rows.width rows.count × (n1 ≤ 63) × (n2 ≤ 63) }
    ensures { result ≡ entries_in rows.kind n1 n2 rows.first rows.width rows.count }
{
    let before = rows.count - 1;
    let last = rows.kind.row(n1, n2, rows.first + before);
    before * rows.width + last.count
}

// ---- marks

// Marks the moves of row k that make different lists.
fn mark_one(
    l: usize,
    demand: &[i32],
    one: &Side,
    other: &Side,
    kind: Kind,
    k: usize,
    marks: &mut [f64],
)
    requires loaded { Loaded l demand.now × (Driven l one.now.van × Driven l other.now.van) × Two l one.now.list.now other.now.list.now }
    requires prefixed { Prefixed demand.now one.now.list.now one.now.loads.now.sums
        × Prefixed demand.now other.now.list.now other.now.loads.now.sums }
    requires k_bound { (k < rows_in kind (length one.now.list.now)) × (width_of kind (length other.now.list.now) ≤ length marks.old) }
    ensures { let row = row_of kind (length one.now.list.now) (length other.now.list.now) k in
        Marked demand.now one.now.van other.now.van one.now.list.now other.now.list.now (tested_in kind) row.own row.others row.distinct
        marks.new }
{
    let row = kind.row(one.list.len(), other.list.len(), k);
    let own = row.own;
    let others = row.others;
    mark_row(
        l,
        demand,
        one,
        other,
        kind.is_tested(),
        own,
        others,
        row.distinct,
        marks,
    );
}

// Marks the moves of a block. No loop over a closure does this and `block_costs`: its contract would say again what those of a row's functions say.
// The sides are copied once, so that the loop reads their parts from no lent memory.
pub fn mark_block(
    l: usize,
    demand: &[i32],
    one: &Side,
    other: &Side,
    rows: Rows,
    marks: &mut [f64; 64],
)
    requires loaded { Loaded l demand.now × (Driven l one.now.van × Driven l other.now.van) × Two l one.now.list.now other.now.list.now }
    requires prefixed { Prefixed demand.now one.now.list.now one.now.loads.now.sums
        × Prefixed demand.now other.now.list.now other.now.loads.now.sums }
    requires block { Block rows.kind (length one.now.list.now) (length other.now.list.now) rows.first rows.width rows.count }
    ensures { MarkedBlock demand.now one.now.van other.now.van one.now.list.now other.now.list.now rows.kind rows.first rows.width rows.count marks.new }
{
    let kind = rows.kind;
    let one = *one;
    let other = *other;
    let width = rows.width;
    for i in 0..rows.count {
        let from = i * width;
        let to = from + width;
        mark_one(
            l,
            demand,
            &one,
            &other,
            kind,
            rows.first + i,
            &mut marks[from..to],
        );
    }
}

// ---- costs

// Row k seen from a list of n visits: the first, or turned the second.
#[tactic(auto, unfolding(crate::specs::Blocks::side_of))]
fn side_of(kind: Kind, turned: bool, n: usize, m: usize, k: usize) -> Row
    requires { (n ≤ 63) × (m ≤ 63) × (k ≤ 63) }
    ensures { result ≡ side_of kind turned n m k }
{
    if turned {
        return kind.row(m, n, k).turned();
    }
    kind.row(n, m, k)
}

// What the lists that the moves of row k make of a list cost.
fn cost_one(
    columns: &Columns,
    side: &Side,
    other: &[u16],
    kind: Kind,
    turned: bool,
    k: usize,
    skip: &[f64],
    costs: &mut [f64],
)
    requires driven { Driven columns.now.locations side.now.van × Two columns.now.locations side.now.list.now other.now }
    requires kept { Kept (lent columns.now) side.now.van.depot side.now.list.now side.now.heads.now
        × (k < rows_in kind (cond turned (length other.now) (length side.now.list.now))) }
    requires other_in_bounds { (width_of kind (cond turned (length side.now.list.now) (length other.now)) ≤ length skip.now)
        × (width_of kind (cond turned (length side.now.list.now) (length other.now)) ≤ length costs.old) }
    ensures { CostedRow (lent columns.now) side.now.van side.now.list.now other.now
        (side_of kind turned (length side.now.list.now) (length other.now) k) skip.now costs.new }
{
    let row = side_of(kind, turned, side.list.len(), other.len(), k);
    let own = row.own;
    let others = row.others;
    row_costs(columns, side, own, other, others, skip, row.distinct, costs);
    extend(costs, row.distinct, row.count);
}

// What the lists that the moves of a block make of a list cost: the first, or turned the second. No other function calls `cost_one`, so that it is inlined.
// Its side is copied as in `mark_block`, and `turned` is a bool, for that: with a function for each side, the calls of `row_costs` would be two, and inlined in
// neither (docs/PROOFS.md, Speed).
pub fn block_costs(
    columns: &Columns,
    side: &Side,
    other: &[u16],
    rows: Rows,
    turned: bool,
    skip: &[f64; 64],
    costs: &mut [f64; 64],
)
    requires driven { Driven columns.now.locations side.now.van × Two columns.now.locations side.now.list.now other.now }
    requires kept { Kept (lent columns.now) side.now.van.depot side.now.list.now side.now.heads.now }
    requires block { Block rows.kind (cond turned (length other.now) (length side.now.list.now)) (cond turned (length side.now.list.now) (length other.now))
        rows.first rows.width rows.count }
    ensures { CostedBlock (lent columns.now) side.now.van side.now.list.now other.now rows.kind turned rows.first rows.width rows.count skip.now costs.new }
{
    let kind = rows.kind;
    let side = *side;
    let width = rows.width;
    for i in 0..rows.count {
        let from = i * width;
        let to = from + width;
        cost_one(
            columns,
            &side,
            other,
            kind,
            turned,
            rows.first + i,
            &skip[from..to],
            &mut costs[from..to],
        );
    }
}
