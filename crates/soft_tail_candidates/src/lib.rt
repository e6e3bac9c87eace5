// A tail exchange judged where a day has a soft window (local_search/exchange.rs, the `soft` branches): by the whole of both new lists. Candidates with one
// cut share the head in front of it: it is driven once (`heads`), and a new list is priced from there on.

#![tactic(auto)]

ghost use Rattle.std.specs.Prelude.{◌≡◌, true};
ghost use Rattle.tail_prices.specs.Changes.{DrivenBy, change_of};
ghost use Rattle.soft_tail_candidates.specs.Candidate.{Figured, has_price, pass_by, both_have_room};

use heads::{Head, at_depot, reach};
use tail_candidates::{TailPair, TwoLists};
use tail_prices::{Figures, change_of};

// Two lists that have a price, with a head of each as far as it was driven.
#[derive(Clone, Copy)]
pub struct ByCost<'a> {
    two: &'a TwoLists<'a>,
    figures: Figures,
    driven1: Head,
    driven2: Head,
    ghost figured: { Figured two.now figures },
    ghost priced: { has_price two.now ≡ true },
    ghost first: { DrivenBy two.now two.now.one.now driven1 },
    ghost second: { DrivenBy two.now two.now.other.now driven2 },
}

impl<'a> ByCost<'a> {
    // With both vans at the depot.
    pub fn of(two: &'a TwoLists<'a>, figures: Figures) -> ByCost<'a>
        requires figured { Figured two.now figures }
        requires priced { has_price two.now ≡ true }
        ensures { result.two.now ≡ two.now }
    {
        let start = at_depot(two.terms.depot);
        ByCost {
            two,
            figures,
            driven1: start,
            driven2: start,
        }
    }
}

impl<'a> TailPair for ByCost<'a> {
    ghost two = { λ p. p.two.now };

    ghost delta = { λ p. change_of p.two.now };

    ghost passes = { λ p. pass_by p.two.now };

    fn delta(&self, cut1: usize, cut2: usize) -> f64 {
        change_of(
            self.two,
            self.figures,
            cut1,
            cut2,
            self.driven1,
            self.driven2,
        )
    }

    // Both new lists have room, and both lists a price.
    fn passes(&self, cut1: usize, cut2: usize) -> bool {
        true
    }

    fn reach_one(&mut self, cut1: usize) {
        let two = self.two;
        let terms = &two.terms;
        self.driven1 = reach(
            two.columns,
            terms.limits.rest,
            terms.depot,
            two.one,
            self.driven1,
            cut1,
        );
    }

    fn reach_other(&mut self, cut2: usize) {
        let two = self.two;
        let terms = &two.terms;
        self.driven2 = reach(
            two.columns,
            terms.limits.rest,
            terms.depot,
            two.other,
            self.driven2,
            cut2,
        );
    }

    ghost has_room = { λ p cut1 cut2 e. let room = both_have_room p.two.now cut1 cut2 e in
        record { one = room.0; other = room.1 } };
}
