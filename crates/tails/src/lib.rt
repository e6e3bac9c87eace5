// The best tail exchange of two lists (local_search/exchange.rs): the first least of the exchanges that count and pass, by the first list's cut and then by
// the second's, however one is judged. The load of a head is kept running, and a tail's is the list's less it, so that a candidate's two loads cost two sums.

#![tactic(auto)]

ghost use Rattle.std.specs.Prelude.{◌≡◌, ◌≤◌, length, take};
ghost use Rattle.loads.specs.Loads.{Loaded};
ghost use Rattle.tail_candidates.specs.TwoLists.{load_in};
ghost use Rattle.tails.specs.Best.{row_by, best_by};

use loads::{boxes_at, load_of};
use tail_candidates::{Choice, TailPair, TwoLists, consider};

// The best with one cut of the first list and every cut of the second: `head1` is the load of the first head, `load1` and `load2` those of the lists.
fn best_row<P: TailPair>(
    two: &TwoLists,
    pair: &mut P,
    cut1: usize,
    head1: usize,
    load1: usize,
    load2: usize,
    best: Choice,
) -> Choice
    requires loaded { Loaded two.now.columns.now.locations two.now.demand.now }
    requires two { P.two pair.old ≡ two.now }
    requires cut1 { cut1 ≤ length two.now.one.now }
    requires head1 { head1 ≡ load_in two.now (take cut1 two.now.one.now) }
    requires load1 { load1 ≡ load_in two.now two.now.one.now }
    requires load2 { load2 ≡ load_in two.now two.now.other.now }
    ensures best { result ≡ row_by (P.delta pair.old) (P.passes pair.old) (length two.now.other.now) cut1 best }
    ensures two { P.two pair.new ≡ P.two pair.old }
    ensures delta { P.delta pair.new ≡ P.delta pair.old }
    ensures passes { P.passes pair.new ≡ P.passes pair.old }
{
    let mut found = best;
    let mut head2 = 0;
    for last in 0..two.other.len() {
        head2 += boxes_at(two.columns.locations, two.demand, two.other, last);
        let cut2 = last + 1;
        let new1 = head1 + (load2 - head2);
        let new2 = head2 + (load1 - head1);
        pair.reach_other(cut2);
        found = consider(two, pair, cut1, cut2, new1, new2, found);
    }
    found
}

// The first least of all exchanges of two lists, which load so much.
pub fn best_loaded<P: TailPair>(two: &TwoLists, pair: &mut P, load1: usize, load2: usize) -> Choice
    requires loaded { Loaded two.now.columns.now.locations two.now.demand.now }
    requires two { P.two pair.old ≡ two.now }
    requires load1 { load1 ≡ load_in two.now two.now.one.now }
    requires load2 { load2 ≡ load_in two.now two.now.other.now }
    ensures { result ≡ best_by (P.delta pair.old) (P.passes pair.old) (length two.now.one.now) (length two.now.other.now) two.now.terms.floor }
{
    let mut best = Choice::nothing(two.terms.floor);
    let mut head1 = 0;
    for last in 0..two.one.len() {
        head1 += boxes_at(two.columns.locations, two.demand, two.one, last);
        pair.reach_one(last + 1);
        best = best_row(two, pair, last + 1, head1, load1, load2, best);
    }
    best
}

// The first least of all exchanges of two lists.
pub fn best_exchange<P: TailPair>(two: &TwoLists, pair: &mut P) -> Choice
    requires loaded { Loaded two.now.columns.now.locations two.now.demand.now }
    requires two { P.two pair.old ≡ two.now }
    ensures { result ≡ best_by (P.delta pair.old) (P.passes pair.old) (length two.now.one.now) (length two.now.other.now) two.now.terms.floor }
{
    let load1 = load_of(two.columns.locations, two.demand, two.one);
    let load2 = load_of(two.columns.locations, two.demand, two.other);
    best_loaded(two, pair, load1, load2)
}
