// Tail exchange between lists, in place (local_search/exchange.rs, where no window is soft). Potvin and Rousseau 1995, 2-opt*: two lists each keep a head
// of one visit or more and exchange their tails; both loads and both lists pass.
//
// The run is that of `exchange_sweeps`, and the exchange of two lists that of `tails`. Nothing is kept beside the tables.

#![tactic(auto)]

ghost use Rattle.std.specs.Prelude.{◌≡◌, true, [], ◌∷◌, ◌<◌, pos};
ghost use Rattle.std.specs.Int.Signed.{le_z};
ghost use Rattle.numbers.specs.Operations.{zero64};
ghost use Rattle.lists.specs.Table.{lists};
ghost use Rattle.list_changes.specs.Edits.{Edited};
ghost use Rattle.descent.specs.Permitted.{tail_exchange};
ghost use Rattle.descent.specs.Engines.{run_of};
ghost use Rattle.deltas.specs.Judged.{float_judge};
ghost use Rattle.engine.specs.Engine.{checks_of, map_of, ended_as};
ghost use Rattle.loads.specs.Loads.{boxes, Loaded, Held};
ghost use Rattle.tail_candidates.specs.Candidate.{Asked};
ghost use Rattle.exchange.specs.Rules.{rules_of};
ghost use Rattle.labels.specs.Lent.{lent};

use day::vehicle::RouteLimits;
use engine::Ended;
use exchange_sweeps::{Exchange, Place, TailSearch, run_moves};
use labels::columns::Columns;
use list_changes::exchange_tails;
use lists::list_of;
use tail_candidates::{ByDistance, Cut, Terms, TwoLists};
use tails::best_exchange;

// A search where no window is soft: distances alone judge an exchange.
#[derive(Drop)]
pub struct Hard<'a> {
    columns: &'a Columns<'a>,
    demand: &'a [i32],
    terms: Terms,
    ghost asked: { Asked (lent columns.now) demand.now terms },
}

impl<'a> TailSearch for Hard<'a> {
    ghost rules = { λ s. rules_of (lent s.columns.now) s.demand.now s.terms };

    ghost Kept = { λ s ls. Unit {0} };

    fn best_at(&self, visits: &[u16], lengths: &[u16], place: Place) -> Option<Cut> {
        let one = list_of(visits, lengths, place.one);
        let other = list_of(visits, lengths, place.other);
        let two = TwoLists {
            columns: self.columns,
            demand: self.demand,
            terms: self.terms,
            one,
            other,
        };
        let mut pair = ByDistance { two: &two };
        best_exchange(&two, &mut pair).cut()
    }

    fn make(&mut self, visits: &mut [u16], lengths: &mut [u16], exchange: Exchange) {
        let place = exchange.place;
        let cut = exchange.cut;
        exchange_tails(visits, lengths, place.one, place.other, cut.one, cut.other);
    }
}

// Tail exchange of the lists of a call, up to a limit of moves. An emptied list is no case: each head keeps a visit.
pub fn exchange_improve(
    columns: &Columns,
    demand: &[i32],
    limits: RouteLimits,
    capacity: i32,
    depot: usize,
    visits: &mut [u16],
    lengths: &mut [u16],
    limit: u32,
) -> Ended
    requires loaded { Loaded columns.now.locations demand.now }
    requires capacity_value { (le_z (pos 0) capacity ≡ true) × (depot < columns.now.locations) × Held columns.now.locations visits.old lengths.old }
    ensures { let c = lent columns.now in
        let run = run_of tail_exchange (checks_of (boxes demand.now capacity ∷ []) c limits depot)
        (float_judge tail_exchange (map_of columns.now.locations columns.now.distances.now depot zero64)) limit (lists visits.old lengths.old)
        in Edited visits.old lengths.old visits.new lengths.new run.last.now
        × (result ≡ ended_as run.word run.moves) }
{
    let terms = Terms::of(columns, limits, capacity, depot);
    let mut search = Hard {
        columns,
        demand,
        terms,
    };
    run_moves(&mut search, visits, lengths, limit)
}
