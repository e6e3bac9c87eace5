// The best tail exchange of two lists where a day has a soft window (local_search/exchange.rs, the `soft` branches), judged by the whole of both new lists
// (`soft_tail_candidates`).
//
// Cuts, loads and the order of search are those of `tails`. What differs is that a pair of which one list has no finite price has no move. The cut at both
// ends, which changes nothing, is tried too, as in the Rust.

#![tactic(auto)]

ghost use Rattle.std.specs.Prelude.{◌≡◌};
ghost use Rattle.loads.specs.Loads.{Loaded};
ghost use Rattle.soft_tail_candidates.specs.Candidate.{Figured};
ghost use Rattle.soft_tails.specs.Parts.{best_of};

use numbers::is_finite;
use soft_tail_candidates::ByCost;
use tail_candidates::{Choice, TwoLists};
use tail_prices::Figures;
use tails::best_loaded;

// The first least of all exchanges of two lists whose loads and prices are known; none where a list has no price.
pub fn best_exchange_of(two: &TwoLists, figures: Figures) -> Choice
    requires loaded { Loaded two.now.columns.now.locations two.now.demand.now }
    requires figured { Figured two.now figures }
    ensures { result ≡ best_of two.now }
{
    if !is_finite(figures.one.cost) {
        return Choice::nothing(two.terms.floor);
    }
    if !is_finite(figures.other.cost) {
        return Choice::nothing(two.terms.floor);
    }
    let mut pair = ByCost::of(two, figures);
    best_loaded(two, &mut pair, figures.one.load, figures.other.load)
}
