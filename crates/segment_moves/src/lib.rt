// local_search/or_opt.rs: the best move of a piece of a given length within its list: the first least of the changes that count and pass, by the piece's place
// and then by its new position. Every loop keeps that what the rest comes to from the best so far is what all come to from its start.

#![tactic(auto)]

ghost use Rattle.std.specs.Prelude.{◌≡◌, ◌⊎◌, suc, ◌+◌, ◌<◌, ◌≤◌, length};
ghost use Rattle.labels.specs.Columns.{leg_in};
ghost use Rattle.descent.specs.Order.{range};
ghost use Rattle.descent.specs.Search.{taken};
ghost use Rattle.deltas.specs.Deltas.{removal_gain};
ghost use Rattle.engine.specs.Best.{found_as};
ghost use Rattle.segments.specs.Segments.{last_position, search_of, judge_of, Asked, to_each, placed, Known, Among};
ghost use Rattle.segment_moves.specs.Row.{row};
ghost use Rattle.labels.specs.Lent.{lent};

use deltas_within::removal_gain;
use engine::best::Best;
use labels::columns::Columns;
use segments::{Change, Segment, Terms, consider};

// The last position that a piece may have: n minus its length, so that no piece goes to the list's end.
fn last_position(n: usize, size: usize) -> usize
    requires { size ≤ n }
    ensures { result ≡ last_position n size }
{
    n - size
}

// The best with the positions from `start` up to `end`, all of them before the piece or behind it.
fn best_between(
    columns: &Columns,
    terms: Terms,
    list: &[u16],
    piece: Segment,
    start: usize,
    end: usize,
    best: Best<Change>,
) -> Best<Change>
    requires asked { Asked (lent columns.now) terms list.now }
    requires size_in_bounds { (piece.from + piece.size ≤ length list.now) × (end ≤ suc (length list.now)) }
    requires fact { (end ≤ piece.from) ⊎ (piece.from + piece.size ≤ start) }
    requires gain_value { piece.gain ≡ removal_gain (leg_in (lent columns.now)) terms.depot list.now piece.size piece.from }
    requires known { Known (lent columns.now) terms list.now best }
    ensures { Among (lent columns.now) terms list.now best (to_each piece.size piece.from (range start end)) result }
{
    let mut found = best;
    for to in start..end {
        found = consider(columns, terms, list, piece, to, found);
    }
    found
}

// The best with the piece at `from`, at every position but those from its start to its end.
fn best_from(
    columns: &Columns,
    terms: Terms,
    list: &[u16],
    size: usize,
    from: usize,
    best: Best<Change>,
) -> Best<Change>
    requires asked { Asked (lent columns.now) terms list.now }
    requires size_in_bounds { from + size ≤ length list.now }
    requires known { Known (lent columns.now) terms list.now best }
    ensures { Among (lent columns.now) terms list.now best (row (length list.now) size from) result }
{
    let gain = removal_gain(&columns.matrix(), terms.depot, list, size, from);
    let piece = Segment { size, from, gain };
    let before = best_between(columns, terms, list, piece, 0, from, best);
    let start = from + size + 1;
    let end = last_position(list.len(), size) + 1;
    best_between(columns, terms, list, piece, start, end, before)
}

// The first least of all changes with a piece of `size` visits, which is shorter than the list.
pub fn best_piece(columns: &Columns, terms: Terms, list: &[u16], size: usize) -> Option<Change>
    requires asked { Asked (lent columns.now) terms list.now }
    requires size_bound { size < 4 }
    ensures { let c = lent columns.now in
        found_as placed result ≡ taken (search_of c terms) (judge_of c terms) list.now size }
{
    let n = list.len();
    if n < size + 1 {
        return None;
    }
    let mut best = Best::below(-terms.floor);
    for from in 0..n - size + 1 {
        best = best_from(columns, terms, list, size, from, best);
    }
    best.found
}
