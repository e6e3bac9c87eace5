// 2-opt improvement of one list, in place (local_search/two_opt.rs, where no window is soft). Croes 1958: a run of two or more visits is reversed.
//
// After a kept reversal the sweep goes on behind it; a sweep with no move ends the run. A run starts with nothing ahead, in front of a new sweep. Each search
// (reversals) equals the definition's `next`, so that the run is the definition's.

#![tactic(auto)]

ghost use Rattle.std.specs.Prelude.{◌≡◌, true, List, [], ℕ, ◌<◌, length};
ghost use Rattle.numbers.specs.Operations.{zero64};
ghost use Rattle.day.specs.Refusal.{all_plain};
ghost use Rattle.labels.specs.Columns.{Visits};
ghost use Rattle.labels.specs.Lent.{lent};
ghost use Rattle.descent.specs.Permitted.{two_opt};
ghost use Rattle.descent.specs.Search.{Sweep};
ghost use Rattle.descent.specs.Within.{Reversal};
ghost use Rattle.descent.specs.Engines.{run_of};
ghost use Rattle.deltas.specs.Judged.{float_judge};
ghost use Rattle.engine.specs.Engine.{checks_of, map_of, ended_as, OneList};
ghost use Rattle.reversal_places.specs.Places.{place_after};
ghost use Rattle.reversal_places.specs.declared.Terms.{Terms};
ghost use Rattle.reversals.specs.Reversals.{next_turn};
ghost use Rattle.two_opt.specs.TwoOpt.{at, Ready, Apt, before};

use day::vehicle::RouteLimits;
use day_scans::matrix::{is_symmetric, scale};
use edits::reverse;
use engine::{Ended, Engine, run};
use evaluation::route::route_checks_needed;
use labels::columns::Columns;
use numbers::gain_floor;
use reversal_places::{Place, Terms, place_after};
use reversals::next_move;

// A run of 2-opt on one list. The places from `ahead` on are still ahead in this sweep; a reversal that was found is made already.
#[derive(Drop)]
struct TwoOpt<'c, 'a> {
    columns: &'c Columns<'c>,
    terms: Terms,
    list: &'a mut [u16],
    ahead: Place,
}

impl<'c, 'a> Engine for TwoOpt<'c, 'a> {
    type Move = Place;

    ghost Frame = { OneList Terms };

    ghost frame = { λ s. record { columns = lent s.columns.now; terms = s.terms; list = s.list.ghost_name; visits = length s.list.now } };

    ghost State = { Sweep (List ℕ) Reversal };

    ghost state = { λ s. at s.list.now s.ahead };

    ghost next = { λ f. next_turn f.columns f.terms };

    ghost Ready = { λ s. Ready (lent s.columns.now) s.terms s.list.now s.ahead };

    ghost Apt = { λ s. Apt (lent s.columns.now) s.terms s.list.now };

    ghost before = { λ s. before s.list.now s.ahead };

    ghost after = { λ s m. at s.list.now (place_after (length s.list.now) m) };

    fn next_move(&mut self) -> Option<Place> {
        let terms = self.terms;
        let ahead = self.ahead;
        next_move(terms, self.columns, self.list, ahead)
    }

    fn make(&mut self, found: Place) {
        self.ahead = place_after(self.list.len(), found);
    }

    fn forgo(&mut self, found: Place) {
        reverse(self.list, found.first, found.last + 1);
    }
}

// 2-opt of a list, up to a limit of moves.
pub fn two_opt_improve(
    columns: &Columns,
    limits: RouteLimits,
    depot: usize,
    list: &mut [u16],
    limit: u32,
) -> Ended
    requires depot_lt_l { (depot < columns.now.locations) × Visits columns.now.locations list.old }
    requires distances_value { all_plain columns.now.distances.now ≡ true }
    ensures { let run = run_of two_opt
        (checks_of [] (lent columns.now) limits depot)
        (float_judge two_opt (map_of columns.now.locations columns.now.distances.now depot zero64))
        limit list.old
        in (list.new ≡ run.last.now) × (result ≡ ended_as run.word run.moves) }
{
    let floor = gain_floor(scale(columns.distances));
    let symmetric = is_symmetric(&columns.matrix());
    let needed = route_checks_needed(columns.flags, limits);
    let terms = Terms {
        depot,
        limits,
        floor,
        symmetric,
        needed,
    };
    let n = list.len();
    let ahead = Place {
        first: n,
        last: n + 1,
    };
    let mut two_opt = TwoOpt {
        columns,
        terms,
        list,
        ahead,
    };
    run(&mut two_opt, limit)
}
