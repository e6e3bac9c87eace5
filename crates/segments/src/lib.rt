// local_search/or_opt.rs (Or 1976): a piece of a list at one new position of it: what that changes, whether the list then passes, and the better of it and
// the best so far. The Rust's one test against the best so far is the definition's two, as what is below the best also counts.

#![tactic(auto)]

ghost use Rattle.std.specs.Prelude.{◌≡◌, [], ◌∷◌, length};
ghost use Rattle.labels.specs.Columns.{leg_in};
ghost use Rattle.evaluation.specs.Route.{feasible};
ghost use Rattle.descent.specs.Within.{put_before_lem};
ghost use Rattle.deltas.specs.Deltas.{removal_gain};
ghost use Rattle.engine.specs.Engine.{passing};
ghost use Rattle.segments.specs.Segments.{Asked, Fits, to_each, Known, Among};
ghost use Rattle.labels.specs.Lent.{lent};

use buffers::append;
use day::vehicle::RouteLimits;
use deltas_within::piece_insertion;
use edits::move_piece;
use engine::best::Best;
use evaluation::route::route_feasible;
use labels::columns::Columns;

// What stays the same over a run.
#[derive(Clone, Copy)]
pub struct Terms {
    pub depot: usize,
    pub limits: RouteLimits,
    // Whether a candidate has to be checked.
    pub needed: bool,
    // The gain below which a change does not count.
    pub floor: f64,
}

// A piece taken out of the list, and what that gains.
#[derive(Clone, Copy)]
pub struct Segment {
    pub size: usize,
    pub from: usize,
    pub gain: f64,
}

// A piece and its new position.
#[derive(Clone, Copy)]
pub struct Change {
    pub size: usize,
    pub from: usize,
    pub to: usize,
}

// Whether the list with the piece moved passes: it is built in a buffer of the list's length.
fn candidate_passes(
    candidate: &mut [u16],
    columns: &Columns,
    terms: Terms,
    list: &[u16],
    size: usize,
    from: usize,
    to: usize,
) -> bool
    requires asked { Asked (lent columns.now) terms list.now }
    requires fits { Fits (length list.now) (record { size = size; from = from; to = to }) }
    requires candidate_len { length candidate.old ≡ length list.now }
    ensures { result ≡ feasible (lent columns.now)
        terms.limits terms.depot (put_before_lem list.now (record { size = size; from = from; to = to })) }
{
    append(candidate, 0, list);
    move_piece(candidate, from, size, to);
    let limits = terms.limits;
    route_feasible(columns, limits, terms.depot, candidate)
}

// Whether the list with the piece moved passes. Where no check is needed it does, and is not built.
fn moved_passes(
    columns: &Columns,
    terms: Terms,
    list: &[u16],
    size: usize,
    from: usize,
    to: usize,
) -> bool
    requires asked { Asked (lent columns.now) terms list.now }
    requires fits { Fits (length list.now) (record { size = size; from = from; to = to }) }
    ensures { result ≡ passing terms.needed (lent columns.now)
        terms.limits terms.depot (put_before_lem list.now (record { size = size; from = from; to = to })) }
{
    if !terms.needed {
        return true;
    }
    let mut buffer = [0u16; 64];
    let n = list.len();
    candidate_passes(&mut buffer[0..n], columns, terms, list, size, from, to)
}

// The better of the best so far and one position more: the piece goes there where that is a lesser change and passes.
pub fn consider(
    columns: &Columns,
    terms: Terms,
    list: &[u16],
    piece: Segment,
    to: usize,
    best: Best<Change>,
) -> Best<Change>
    requires asked { Asked (lent columns.now) terms list.now }
    requires fits { Fits (length list.now) (record { size = piece.size; from = piece.from; to = to }) }
    requires gain_value { piece.gain ≡ removal_gain (leg_in (lent columns.now)) terms.depot list.now piece.size piece.from }
    requires known { Known (lent columns.now) terms list.now best }
    ensures { Among (lent columns.now) terms list.now best (to_each piece.size piece.from (to ∷ [])) result }
{
    let size = piece.size;
    let from = piece.from;
    let cost = piece_insertion(&columns.matrix(), terms.depot, list, size, from, to);
    let delta = cost - piece.gain;
    if !(delta < best.bound) {
        return best;
    }
    if !moved_passes(columns, terms, list, size, from, to) {
        return best;
    }
    Best {
        bound: delta,
        found: Some(Change { size, from, to }),
    }
}
