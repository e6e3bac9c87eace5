// What each list of a call costs and loads where a day has a soft window (local_search/exchange.rs, the `soft` branches: `old1`, `old2` and the loads).
// A move changes two lists only, so that a run keeps the figures of every list, of at most 16, and works them out again for these two.

#![tactic(auto)]

ghost use Rattle.std.specs.Prelude.{◌≡◌, ◌<◌, length, set};
ghost use Rattle.lists.specs.Table.{lists};
ghost use Rattle.list_changes.specs.Edits.{at};
ghost use Rattle.loads.specs.Loads.{Held};
ghost use Rattle.tail_prices.specs.Changes.{figure_of};
ghost use Rattle.soft_tail_candidates.specs.Candidate.{Asked};
ghost use Rattle.list_figures.specs.Kept.{KeptFigures, figured_again, figures_at};
ghost use Rattle.labels.specs.Lent.{lent};

use evaluation::route::effective_cost;
use labels::columns::Columns;
use lists::list_of;
use loads::load_of;
use tail_candidates::Terms;
use tail_prices::{Figure, Figures};

// The figures of the lists of a call, under their numbers.
#[derive(Clone, Copy)]
pub struct ListFigures {
    pub entries: [Figure; 16],
}

impl ListFigures {
    // Those of every list.
    pub fn of(
        columns: &Columns,
        demand: &[i32],
        terms: Terms,
        visits: &[u16],
        lengths: &[u16],
    ) -> ListFigures
        requires asked { Asked (lent columns.now) demand.now terms }
        requires held { Held columns.now.locations visits.now lengths.now }
        ensures { KeptFigures (lent columns.now) demand.now terms (lists visits.now lengths.now) (length lengths.now) result.entries }
    {
        let nothing = Figure { load: 0, cost: 0.0 };
        let mut figures = ListFigures {
            entries: [nothing; 16],
        };
        for r in 0..lengths.len() {
            figures.renew(columns, demand, terms, visits, lengths, r);
        }
        figures
    }

    // Works out again what list r costs and loads.
    fn renew(
        &mut self,
        columns: &Columns,
        demand: &[i32],
        terms: Terms,
        visits: &[u16],
        lengths: &[u16],
        r: usize,
    )
        requires asked { Asked (lent columns.now) demand.now terms }
        requires held { Held columns.now.locations visits.now lengths.now × (r < length lengths.now) }
        ensures { self.new.entries ≡ set self.old.entries r (figure_of (lent columns.now) demand.now terms (at (lists visits.now lengths.now) r)) }
    {
        let list = list_of(visits, lengths, r);
        let cost = effective_cost(columns, terms.limits, terms.depot, list);
        let load = load_of(columns.locations, demand, list);
        self.entries[r] = Figure { load, cost };
    }

    // So of the two lists that a move changed.
    pub fn renew_two(
        &mut self,
        columns: &Columns,
        demand: &[i32],
        terms: Terms,
        visits: &[u16],
        lengths: &[u16],
        one: usize,
        other: usize,
    )
        requires asked { Asked (lent columns.now) demand.now terms }
        requires held { Held columns.now.locations visits.now lengths.now × (one < length lengths.now) × (other < length lengths.now) }
        ensures { self.new.entries ≡ figured_again (lent columns.now) demand.now terms (lists visits.now lengths.now) one other self.old.entries }
    {
        self.renew(columns, demand, terms, visits, lengths, one);
        self.renew(columns, demand, terms, visits, lengths, other);
    }

    // Those of two lists.
    pub fn of_two(&self, one: usize, other: usize) -> Figures
        requires { (one < 16) × (other < 16) }
        ensures { result ≡ figures_at self.now.entries one other }
    {
        Figures {
            one: self.entries[one],
            other: self.entries[other],
        }
    }
}
