// One tail exchange of two lists (local_search/exchange.rs): the better of it and the best so far, however it is judged. The Rust's two tests of a delta are
// one: the best so far starts at minus the floor.

#![tactic(auto)]

ghost use Rattle.std.specs.Prelude.{◌≡◌, true, Bool, ◌+◌, ◌≤◌, ℕ, Float, length, take, pos};
ghost use Rattle.std.specs.Int.Signed.{le_z};
ghost use Rattle.edits.specs.Total.{total};
ghost use Rattle.list_changes.specs.Edits.{joined};
ghost use Rattle.loads.specs.Loads.{boxes_of};
ghost use Rattle.tail_candidates.specs.Choice.{terms_of, cut_of, nothing, better_by};
ghost use Rattle.tail_candidates.specs.TwoLists.{Within, Roomy};
ghost use Rattle.labels.specs.Lent.{lent};

mod by_distance;
mod two_lists;

use buffers::append_stretch;
pub use by_distance::ByDistance;
use day::vehicle::RouteLimits;
use day_scans::matrix::scale;
use evaluation::route::route_checks_needed;
use labels::columns::Columns;
use loads::boxes_in;
use numbers::gain_floor;
pub use two_lists::TwoLists;

// What stays the same over a run: worked out once, before the first move.
#[derive(Clone, Copy)]
pub struct Terms {
    pub depot: usize,
    pub limits: RouteLimits,
    // The boxes that the van holds.
    pub capacity: usize,
    // Whether a candidate has to be checked.
    pub needed: bool,
    // The gain below which a change does not count.
    pub floor: f64,
}

impl Terms {
    // Those of a day and a van.
    pub fn of(columns: &Columns, limits: RouteLimits, capacity: i32, depot: usize) -> Terms
        requires { le_z (pos 0) capacity ≡ true }
        ensures { result ≡ terms_of (lent columns.now) limits capacity depot }
    {
        Terms {
            depot,
            limits,
            capacity: boxes_in(capacity),
            needed: route_checks_needed(columns.flags, limits),
            floor: gain_floor(scale(columns.distances)),
        }
    }
}

// How many visits each of two lists keeps where their tails change places.
#[derive(Clone, Copy)]
pub struct Cut {
    pub one: usize,
    pub other: usize,
}

// The best exchange of two lists so far, with what it changes; `cut1` 0 is none, and its delta is minus the floor. The loops over the cuts carry it, so that
// it holds words alone (speed).
#[derive(Clone, Copy)]
pub struct Choice {
    pub cut1: usize,
    pub cut2: usize,
    pub delta: f64,
}

impl Choice {
    // Nothing so far: a delta has to be below minus the floor.
    pub fn nothing(floor: f64) -> Choice
        ensures { result ≡ nothing floor }
    {
        Choice {
            cut1: 0,
            cut2: 0,
            delta: -floor,
        }
    }

    // The cut chosen, where there is one.
    pub fn cut(self) -> Option<Cut>
        ensures { result ≡ cut_of self.cut1 self.cut2 }
    {
        if self.cut1 == 0 {
            return None;
        }
        Some(Cut {
            one: self.cut1,
            other: self.cut2,
        })
    }
}

// How the exchanges of two lists are judged: what differs between the engines.
pub trait TailPair {
    ghost use Rattle.tail_candidates.specs.declared.two_lists.TwoLists.{TwoLists};

    ghost two: { Self → TwoLists };

    // What an exchange changes, by its cuts, and whether it passes.
    ghost delta: { Self → ℕ → ℕ → Float };

    ghost passes: { Self → ℕ → ℕ → Bool };

    fn delta(&self, cut1: usize, cut2: usize) -> f64
        requires { Within (two self.now) cut1 cut2 }
        ensures { result ≡ delta self.now cut1 cut2 };

    // Whether an exchange passes of which both new lists have room in the van.
    fn passes(&self, cut1: usize, cut2: usize) -> bool
        requires within { Within (two self.now) cut1 cut2 }
        requires room { Roomy (two self.now) cut1 cut2 }
        ensures { result ≡ passes self.now cut1 cut2 };

    // The cut of the first list goes on, and all cuts of the second follow.
    fn reach_one(&mut self, cut1: usize)
        requires { cut1 ≤ length (two self.old).one.now }
        ensures two { two self.new ≡ two self.old }
        ensures delta { delta self.new ≡ delta self.old }
        ensures passes { passes self.new ≡ passes self.old };

    // The cut of the second list goes on.
    fn reach_other(&mut self, cut2: usize)
        requires { cut2 ≤ length (two self.old).other.now }
        ensures two { two self.new ≡ two self.old }
        ensures delta { delta self.new ≡ delta self.old }
        ensures passes { passes self.new ≡ passes self.old };

    ghost has_room: { (s : Self) (cut1 cut2 : ℕ) → passes s cut1 cut2 ≡ true → Roomy (two s) cut1 cut2 };
}

// Lays the first `cut1` visits of a list out with another's tail behind them, and answers how many visits that are.
pub fn join(buffer: &mut [u16], one: &[u16], cut1: usize, other: &[u16], cut2: usize) -> usize
    requires room { length buffer.old ≡ 64 }
    requires few { length one.now + length other.now ≤ 63 }
    requires within { (cut1 ≤ length one.now) × (cut2 ≤ length other.now) }
    ensures count { result ≤ length buffer.new }
    ensures joined { take result buffer.new ≡ joined one.now cut1 other.now cut2 }
{
    let head = append_stretch(buffer, 0, one, 0, cut1);
    append_stretch(buffer, head, other, cut2, other.len())
}

// The better of the best so far and one exchange more, of which the new loads are known: loads first, then the delta, then the two lists.
pub fn consider<P: TailPair>(
    two: &TwoLists,
    pair: &P,
    cut1: usize,
    cut2: usize,
    load1: usize,
    load2: usize,
    best: Choice,
) -> Choice
    requires two { P.two pair.now ≡ two.now }
    requires within { Within two.now cut1 cut2 }
    requires load1 { load1 ≡ total (boxes_of two.now.demand.now) (joined two.now.one.now cut1 two.now.other.now cut2) }
    requires load2 { load2 ≡ total (boxes_of two.now.demand.now) (joined two.now.other.now cut2 two.now.one.now cut1) }
    ensures { result ≡ better_by (P.delta pair.now) (P.passes pair.now) cut1 cut2 best }
{
    if load1 > two.terms.capacity {
        return best;
    }
    if load2 > two.terms.capacity {
        return best;
    }
    let delta = pair.delta(cut1, cut2);
    if !(delta < best.delta) {
        return best;
    }
    if !pair.passes(cut1, cut2) {
        return best;
    }
    Choice { cut1, cut2, delta }
}
