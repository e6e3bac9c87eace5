// The best move between two lists of different depots (the inner loops of `best_move` of local_search/cross_depot.rs). Moves are tried row by row, as many
// rows at once as the tables have room for: what the lists of a block of rows cost is worked out into the tables, the first list's before the second's, and
// the first least delta of the block is taken.

#![tactic(auto)]

ghost use Rattle.std.specs.Prelude.{◌≡◌, ◌+◌, length};
ghost use Rattle.loads.specs.Loads.{Two};
ghost use Rattle.descent.specs.Order.{range, scan};
ghost use Rattle.cross_choices.specs.Scan.{Asked, Paired, Ready, best_between};
ghost use Rattle.cross_choices.specs.Rows.{best_of_row, best_of_kind};
ghost use Rattle.cross_blocks.specs.Blocks.{Block};
ghost use Rattle.cross_pairs.specs.Kinds.{kinds_of};
ghost use Rattle.labels.specs.Lent.{lent};

use cross_blocks::{block_costs, entries_of, mark_block, rows_at_once};
use cross_choices::{Choice, choose_of_block, is_shut, least_of};
use cross_kinds::kind::{Kind, Rows};
use cross_moves::pair::Pair;
use cross_moves::side::{PrefixLoads, Side};
use kept_heads::KeptHeads;
use labels::columns::Columns;

// Room for what is worked out of two lists, and for what the lists of a block of moves cost.
#[derive(Drop)]
pub struct Room {
    pub loads1: PrefixLoads,
    pub loads2: PrefixLoads,
    pub heads1: KeptHeads,
    pub heads2: KeptHeads,
    pub costs1: [f64; 64],
    pub costs2: [f64; 64],
}

impl Room {
    // Nothing is worked out: no head of either list is reached.
    #[inline]
    pub fn new() -> Room
        ensures { (result.heads1.reached ≡ 0) × (result.heads2.reached ≡ 0) }
    {
        Room {
            loads1: PrefixLoads::room(),
            loads2: PrefixLoads::room(),
            heads1: KeptHeads::room(),
            heads2: KeptHeads::room(),
            costs1: [0.0; 64],
            costs2: [0.0; 64],
        }
    }
}

// The best after the rows of a block. The second table holds the marks until the second list's costs take their place.
fn best_of_block(
    columns: &Columns,
    demand: &[i32],
    pair: &Pair,
    one: &Side,
    other: &Side,
    costs1: &mut [f64; 64],
    costs2: &mut [f64; 64],
    rows: Rows,
    best: Choice,
) -> Choice
    requires ready { Ready (lent columns.now) demand.now pair.now one.now other.now }
    requires block { Block rows.kind (length one.now.list.now) (length other.now.list.now) rows.first rows.width rows.count }
    ensures { result ≡ scan (best_of_row (lent columns.now)
        demand.now pair.now one.now.list.now other.now.list.now rows.kind) (range rows.first (rows.first + rows.count)) best }
{
    mark_block(columns.locations, demand, one, other, rows, costs2);
    block_costs(columns, one, other.list, rows, false, costs2, costs1);
    let n1 = one.list.len();
    let n2 = other.list.len();
    let count = entries_of(rows, n1, n2);
    if is_shut(costs1, count) {
        return best;
    }
    block_costs(columns, other, one.list, rows, true, costs1, costs2);
    let least = least_of(pair.before, count, costs1, costs2, best.delta);
    choose_of_block(rows, pair, n1, n2, count, costs1, costs2, least, best)
}

// The best after all moves of a kind. A block has as many rows as there is room for: no `for`, whose steps are all alike.
fn best_of_kind(
    columns: &Columns,
    demand: &[i32],
    pair: &Pair,
    one: &Side,
    other: &Side,
    costs1: &mut [f64; 64],
    costs2: &mut [f64; 64],
    kind: Kind,
    best: Choice,
) -> Choice
    requires ready { Ready (lent columns.now) demand.now pair.now one.now other.now }
    ensures { result ≡ best_of_kind (lent columns.now) demand.now pair.now one.now.list.now other.now.list.now kind best }
{
    let all = kind.rows(one.list.len());
    let width = kind.width(other.list.len());
    let mut found = best;
    let mut k = 0;
    while k < all {
        let some = rows_at_once(width, all - k);
        let rows = Rows {
            kind,
            first: k,
            width,
            count: some,
        };
        found = best_of_block(
            columns, demand, pair, one, other, costs1, costs2, rows, found,
        );
        k += some;
    }
    found
}

// The kinds of moves in the order of the search.
const KINDS: [Kind; 3] = [Kind::Relocation, Kind::Swap, Kind::Tails];

// How many of them are tried: swaps and tail exchanges once a pair, from its earlier list.
#[tactic(auto, unfolding(crate::specs::Kinds::kinds_of))]
fn kinds_of(pair: &Pair) -> usize
    ensures { result ≡ kinds_of pair.now.one pair.now.other }
{
    if pair.one >= pair.other {
        return 1;
    }
    3
}

// The best after all moves between two lists whose loads and heads are known.
fn best_of_kinds(
    columns: &Columns,
    demand: &[i32],
    pair: &Pair,
    one: &Side,
    other: &Side,
    costs1: &mut [f64; 64],
    costs2: &mut [f64; 64],
    best: Choice,
) -> Choice
    requires ready { Ready (lent columns.now) demand.now pair.now one.now other.now }
    ensures { result ≡ best_between (lent columns.now) demand.now pair.now one.now.list.now other.now.list.now best }
{
    let mut found = best;
    for n in 0..kinds_of(pair) {
        found = best_of_kind(
            columns, demand, pair, one, other, costs1, costs2, KINDS[n], found,
        );
    }
    found
}

// The best after every move between two lists.
pub fn between_lists(
    columns: &Columns,
    demand: &[i32],
    pair: &Pair,
    one: &[u16],
    other: &[u16],
    room: &mut Room,
    best: Choice,
) -> Choice
    requires asked { Asked (lent columns.now) demand.now × Paired columns.now.locations pair.now × Two columns.now.locations one.now other.now }
    ensures { result ≡ best_between (lent columns.now) demand.now pair.now one.now other.now best }
{
    room.loads1.fill(columns.locations, demand, one);
    room.loads2.fill(columns.locations, demand, other);
    room.heads1.fill(columns, pair.van1.depot, one);
    room.heads2.fill(columns, pair.van2.depot, other);
    let first = Side {
        list: one,
        van: pair.van1,
        loads: &room.loads1,
        heads: &room.heads1,
    };
    let second = Side {
        list: other,
        van: pair.van2,
        loads: &room.loads2,
        heads: &room.heads2,
    };
    best_of_kinds(
        columns,
        demand,
        pair,
        &first,
        &second,
        &mut room.costs1,
        &mut room.costs2,
        best,
    )
}
