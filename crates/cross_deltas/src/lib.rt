// The least delta of each pair of lists, kept over a run of cross-depot: which pairs are as they were, and the better of what is kept and what is found.

#![tactic(auto)]

ghost use Rattle.std.specs.Prelude.{◌≡◌, ◌<◌, length};
ghost use Rattle.cross_choices.specs.Scan.{nothing};
ghost use Rattle.cross_deltas.specs.Deltas.{joined, is_old, kept_of, known, noted, moved_on};

use cross_choices::Choice;
use cross_moves::pair::Move;

// No move so far.
pub fn no_choice(floor: f64) -> Choice
    ensures { result ≡ nothing floor }
{
    let none = Move {
        one: 0,
        from1: 0,
        to1: 0,
        other: 0,
        from2: 0,
        to2: 0,
        tested: 0,
    };
    Choice {
        found: 0,
        chosen: none,
        delta: -floor,
        cost1: 0.0,
        cost2: 0.0,
    }
}

// The better of two choices, the first of equals.
#[tactic(auto, unfolding(crate::specs::Deltas::joined))]
pub fn better_of(best: Choice, fresh: Choice) -> Choice
    ensures { result ≡ joined best fresh }
{
    if fresh.delta < best.delta {
        return fresh;
    }
    best
}

// The least deltas: those of the pairs of the first `kept` lists are known, but for the pairs of `one` or `other`.
#[derive(Drop)]
pub struct KeptDeltas {
    pub deltas: [f64; 256],
    pub kept: usize,
    pub one: usize,
    pub other: usize,
}

// How many of the first lists are as they were after a move, but for its two: all n where none was dropped, else none, since the numbers shift.
#[tactic(auto, unfolding(crate::specs::Deltas::kept_of))]
pub fn kept_of(n: usize, left: usize) -> usize
    ensures { result ≡ kept_of n left }
{
    if left == n {
        return n;
    }
    0
}

impl KeptDeltas {
    // No delta is known.
    #[inline]
    pub fn none() -> KeptDeltas
        ensures { (result.kept ≡ 0) × (length result.deltas ≡ 256) }
    {
        KeptDeltas {
            deltas: [0.0; 256],
            kept: 0,
            one: 0,
            other: 0,
        }
    }

    // Whether a list is as it was when the table was filled in: one of the first `kept`, and neither of the two that the last move changed.
    #[tactic(auto, unfolding(crate::specs::Deltas::is_old))]
    pub fn is_old(&self, a: usize) -> bool
        ensures { result ≡ is_old self.now.kept self.now.one self.now.other a }
    {
        a < self.kept && a != self.one && a != self.other
    }

    // The least delta of a pair whose lists both are as they were.
    #[tactic(auto, unfolding(crate::specs::Deltas::known))]
    pub fn known(&self, a: usize, b: usize) -> Option<f64>
        requires { (a < 16) × (b < 16) }
        ensures { result ≡ known self.now a b }
    {
        if self.is_old(a) && self.is_old(b) {
            return Some(self.deltas[16 * a + b]);
        }
        None
    }

    // Puts in the least delta of a pair.
    pub fn note(&mut self, a: usize, b: usize, delta: f64)
        requires { (a < 16) × (b < 16) }
        ensures { self.new ≡ noted self.old a b delta }
    {
        self.deltas[16 * a + b] = delta;
    }

    // A move between two lists that left so many of n lists.
    pub fn move_on(&mut self, n: usize, left: usize, one: usize, other: usize)
        ensures { self.new ≡ moved_on self.old (kept_of n left) one other }
    {
        self.kept = kept_of(n, left);
        self.one = one;
        self.other = other;
    }
}
