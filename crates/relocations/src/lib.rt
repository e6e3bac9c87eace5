// The best relocation between every ordered pair of lists (relocate.rs, `Relocations`: `with_pruning`, `moved`): a table of the pairs (crate `pairs`), filled
// by an engine's search of each pair, first of all pairs and after a move of those with one of its two lists, for the other pairs stay what they were. The
// engines are relocate's two: by deltas (crate `relocate`), and where a day has a soft window by whole prices (crate `soft_relocate`).

#![tactic(auto)]

ghost use Rattle.std.specs.Prelude.{◌≡◌, ◌≢◌, List, ℕ, ◌+◌, ◌<◌, length, get_or};
ghost use Rattle.lists.specs.Table.{Laid, lists};
ghost use Rattle.list_changes.specs.Edits.{Edited, Relocates, relocated};
ghost use Rattle.pairs.specs.Pairs.{Sized, Before, Renewed};
ghost use Rattle.relocations.specs.Relocations.{Terms, Sound, BestOf, Searched, SearchedBoth, PairsRight, Every};

pub mod offer;

use lists::length_of;
use pairs::{Choice, PairTable};

// A relocate engine: it searches two lists for the best move out of the one into the other, and makes moves.
pub trait PairSearch {
    // What it searches for, and how it judges.
    ghost terms: { Self → Terms };

    // Whether it is ready for the lists of these tables.
    ghost ready: { Self → List ℕ → List ℕ → Type 0 };

    // A delta counts below this.
    fn bound(&self) -> f64
        ensures { result ≡ (terms self.now).bound };

    // The best move out of a list that has a visit into another.
    fn best_across(&mut self, visits: &[u16], lengths: &[u16], from: usize, to: usize) -> Choice
        requires is_ready { ready self.old visits.now lengths.now }
        requires in_bounds { (from < length lengths.now) × (to < length lengths.now) }
        requires apart { (from ≢ to) × (get_or lengths.now from 0 ≢ 0) }
        ensures best { BestOf (terms self.old) (lists visits.now lengths.now) from to result }
        ensures still { (terms self.new ≡ terms self.old) × ready self.new visits.now lengths.now };

    // Makes a move.
    fn make_move(&mut self, visits: &mut [u16], lengths: &mut [u16], choice: Choice)
        requires is_ready { ready self.old visits.old lengths.old }
        requires relocates { Relocates visits.old lengths.old choice.from choice.position choice.to choice.place }
        ensures edited { Edited visits.old lengths.old visits.new lengths.new
            (relocated (lists visits.old lengths.old) choice.from choice.position choice.to choice.place) }
        ensures still { (terms self.new ≡ terms self.old) × ready self.new visits.new lengths.new };

    ghost laid: { (engine : Self) (visits lengths : List ℕ) → ready engine visits lengths → Laid visits lengths };

    ghost sound: { (engine : Self) (visits lengths : List ℕ) → ready engine visits lengths → Sound (terms engine) };
}

// ---- one pair

// The best move of a pair of lists; a list has none into itself, and an empty one has none.
pub fn best_between<E: PairSearch>(
    engine: &mut E,
    visits: &[u16],
    lengths: &[u16],
    from: usize,
    to: usize,
) -> Choice
    requires is_ready { E.ready engine.old visits.now lengths.now }
    requires in_bounds { (from < length lengths.now) × (to < length lengths.now) }
    ensures best { BestOf (E.terms engine.old) (lists visits.now lengths.now) from to result }
    ensures still { (E.terms engine.new ≡ E.terms engine.old) × E.ready engine.new visits.now lengths.now }
{
    if from == to {
        return Choice::none_below(engine.bound());
    }
    if length_of(lengths, from) == 0 {
        return Choice::none_below(engine.bound());
    }
    engine.best_across(visits, lengths, from, to)
}

// Searches a pair of lists, and puts its best into the table.
fn search_pair<E: PairSearch>(
    engine: &mut E,
    visits: &[u16],
    lengths: &[u16],
    table: &mut PairTable,
    from: usize,
    to: usize,
)
    requires is_ready { E.ready engine.old visits.now lengths.now }
    requires in_bounds { (from < length lengths.now) × (to < length lengths.now) }
    ensures searched { Searched (E.terms engine.old) (lists visits.now lengths.now) from to table.old table.new }
    ensures still { (E.terms engine.new ≡ E.terms engine.old) × E.ready engine.new visits.now lengths.now }
{
    let best = best_between(engine, visits, lengths, from, to);
    table.put(from, to, best);
}

// ---- all pairs

// Searches every pair with list `from` as the giver.
fn search_row<E: PairSearch>(
    engine: &mut E,
    visits: &[u16],
    lengths: &[u16],
    table: &mut PairTable,
    from: usize,
)
    requires is_ready { E.ready engine.old visits.now lengths.now }
    requires right { PairsRight (E.terms engine.old) (lists visits.now lengths.now) (length lengths.now) (Before from 0) table.old }
    requires from_in_bounds { from < length lengths.now }
    ensures right { PairsRight (E.terms engine.old) (lists visits.now lengths.now) (length lengths.now) (Before (from + 1) 0) table.new }
    ensures still { (E.terms engine.new ≡ E.terms engine.old) × E.ready engine.new visits.now lengths.now }
{
    for to in 0..lengths.len() {
        search_pair(engine, visits, lengths, table, from, to);
    }
}

// Searches every pair.
pub fn search_all<E: PairSearch>(
    engine: &mut E,
    visits: &[u16],
    lengths: &[u16],
    table: &mut PairTable,
)
    requires is_ready { E.ready engine.old visits.now lengths.now }
    requires sized { Sized table.old }
    ensures right { PairsRight (E.terms engine.old) (lists visits.now lengths.now) (length lengths.now) Every table.new }
    ensures still { (E.terms engine.new ≡ E.terms engine.old) × E.ready engine.new visits.now lengths.now }
{
    for from in 0..lengths.len() {
        search_row(engine, visits, lengths, table, from);
    }
}

// ---- the pairs of two lists

// Searches the pairs of two lists, out of the first and into it.
fn search_both<E: PairSearch>(
    engine: &mut E,
    visits: &[u16],
    lengths: &[u16],
    table: &mut PairTable,
    r: usize,
    other: usize,
)
    requires is_ready { E.ready engine.old visits.now lengths.now }
    requires in_bounds { (r < length lengths.now) × (other < length lengths.now) }
    ensures searched { SearchedBoth (E.terms engine.old) (lists visits.now lengths.now) r other table.old table.new }
    ensures still { (E.terms engine.new ≡ E.terms engine.old) × E.ready engine.new visits.now lengths.now }
{
    search_pair(engine, visits, lengths, table, r, other);
    search_pair(engine, visits, lengths, table, other, r);
}

// Searches every pair with list a or b in it again, after both changed.
pub fn search_changed<E: PairSearch>(
    engine: &mut E,
    visits: &[u16],
    lengths: &[u16],
    table: &mut PairTable,
    a: usize,
    b: usize,
)
    requires is_ready { E.ready engine.old visits.now lengths.now }
    requires right { PairsRight (E.terms engine.old) (lists visits.now lengths.now) (length lengths.now) (Renewed a b 0) table.old }
    requires in_bounds { (a < length lengths.now) × (b < length lengths.now) }
    ensures right { PairsRight (E.terms engine.old) (lists visits.now lengths.now) (length lengths.now) Every table.new }
    ensures still { (E.terms engine.new ≡ E.terms engine.old) × E.ready engine.new visits.now lengths.now }
{
    for other in 0..lengths.len() {
        search_both(engine, visits, lengths, table, a, other);
        search_both(engine, visits, lengths, table, b, other);
    }
}
