// Tail exchange between lists where a day has a soft window, in place (local_search/exchange.rs, the `soft` branches).
//
// The run is that of `exchange_sweeps`, and the best exchange of two lists that of `soft_tails`. What each list costs and loads is kept over the run
// (`list_figures`), and worked out again for the two lists that a move changes. Where the rounded delta of an exchange that changes nothing counts, only the
// limit ends the run, as in the Rust.

#![tactic(auto)]

ghost use Rattle.std.specs.Prelude.{◌≡◌, true, ◌<◌, pos, length};
ghost use Rattle.std.specs.Int.Signed.{le_z};
ghost use Rattle.numbers.specs.Floor.{gain_floor};
ghost use Rattle.day.specs.Matrix.{scale_of};
ghost use Rattle.lists.specs.Table.{lists};
ghost use Rattle.list_changes.specs.Edits.{Edited};
ghost use Rattle.engine.specs.Engine.{ended_as};
ghost use Rattle.loads.specs.Loads.{Loaded, Held};
ghost use Rattle.soft_exchange.specs.SoftExchange.{soft_exchange_run};
ghost use Rattle.soft_exchange.specs.Rules.{rules_of};
ghost use Rattle.soft_tail_candidates.specs.Candidate.{Asked};
ghost use Rattle.list_figures.specs.Kept.{KeptFigures};
ghost use Rattle.labels.specs.Lent.{lent};

use day::vehicle::RouteLimits;
use engine::Ended;
use exchange_sweeps::{Exchange, Place, TailSearch, run_moves};
use labels::columns::Columns;
use list_changes::exchange_tails;
use list_figures::ListFigures;
use lists::list_of;
use soft_tails::best_exchange_of;
use tail_candidates::{Cut, Terms, TwoLists};

// A search where a window is soft: whole lists judge an exchange, and what each costs and loads is kept.
#[derive(Drop)]
pub struct Soft<'a> {
    columns: &'a Columns<'a>,
    demand: &'a [i32],
    terms: Terms,
    figures: ListFigures,
    ghost asked: { Asked (lent columns.now) demand.now terms },
}

impl<'a> TailSearch for Soft<'a> {
    ghost rules = { λ s. rules_of (lent s.columns.now) s.demand.now s.terms };

    ghost Kept = { λ s ls. KeptFigures (lent s.columns.now) s.demand.now s.terms ls (length ls) s.figures.entries };

    fn best_at(&self, visits: &[u16], lengths: &[u16], place: Place) -> Option<Cut> {
        let one = list_of(visits, lengths, place.one);
        let other = list_of(visits, lengths, place.other);
        let two = TwoLists {
            columns: self.columns,
            demand: self.demand,
            terms: self.terms,
            one,
            other,
        };
        let figures = self.figures.of_two(place.one, place.other);
        best_exchange_of(&two, figures).cut()
    }

    fn make(&mut self, visits: &mut [u16], lengths: &mut [u16], exchange: Exchange) {
        let Place { one, other } = exchange.place;
        let cut = exchange.cut;
        exchange_tails(visits, lengths, one, other, cut.one, cut.other);
        self.figures.renew_two(
            self.columns,
            self.demand,
            self.terms,
            visits,
            lengths,
            one,
            other,
        );
    }
}

// Soft tail exchange of the lists of a call, up to a limit of moves. An emptied list is no case: each head keeps a visit.
pub fn improve(
    columns: &Columns,
    demand: &[i32],
    limits: RouteLimits,
    capacity: i32,
    depot: usize,
    visits: &mut [u16],
    lengths: &mut [u16],
    limit: u32,
) -> Ended
    requires loaded { Loaded columns.now.locations demand.now }
    requires capacity_value { (le_z (pos 0) capacity ≡ true) × (depot < columns.now.locations) × Held columns.now.locations visits.old lengths.old }
    ensures { let run = soft_exchange_run (lent columns.now)
        demand.now limits capacity depot (gain_floor (scale_of columns.now.distances.now)) limit
        (lists visits.old lengths.old)
        in Edited visits.old lengths.old visits.new lengths.new run.last.now
        × (result ≡ ended_as run.word run.moves) }
{
    let terms = Terms::of(columns, limits, capacity, depot);
    let figures = ListFigures::of(columns, demand, terms, visits, lengths);
    let mut search = Soft {
        columns,
        demand,
        terms,
        figures,
    };
    run_moves(&mut search, visits, lengths, limit)
}
