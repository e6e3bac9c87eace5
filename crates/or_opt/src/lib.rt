// local_search/or_opt.rs (Or 1976): a piece of 1 to 3 visits goes to a better position of the same list.
//
// Order of search: piece lengths 1, 2, 3 in turn, at each the best move of a piece of that length (segment_moves); after a move the sweep goes on with the
// next length. Every function states what the definition chooses from here on, so that each loop shows that the rest equals the whole.

#![tactic(auto)]

ghost use Rattle.std.specs.Prelude.{◌≡◌, [], List, ℕ, ◌<◌, length};
ghost use Rattle.numbers.specs.Operations.{zero64};
ghost use Rattle.labels.specs.Columns.{Visits};
ghost use Rattle.labels.specs.Lent.{lent};
ghost use Rattle.descent.specs.Order.{range};
ghost use Rattle.descent.specs.Permitted.{or_opt, n_minus_length};
ghost use Rattle.descent.specs.Search.{Sweep, first_move, next};
ghost use Rattle.descent.specs.Engines.{run_of};
ghost use Rattle.deltas.specs.Judged.{float_judge};
ghost use Rattle.engine.specs.Engine.{checks_of, map_of, ended_as, OneList};
ghost use Rattle.segments.specs.Segments.{search_of, judge_of, Asked};
ghost use Rattle.segments.specs.declared.Terms.{Terms};
ghost use Rattle.or_opt.specs.OrOpt.{at, Apt, after, Led};

use day::vehicle::RouteLimits;
use day_scans::matrix::scale;
use edits::move_piece;
use engine::{Ended, Engine, run};
use evaluation::route::route_checks_needed;
use labels::columns::Columns;
use numbers::gain_floor;
use segment_moves::best_piece;
use segments::{Change, Terms};

// A run of Or-opt on one list. The piece lengths from `ahead` on are still ahead in this sweep.
#[derive(Drop)]
struct OrOpt<'a> {
    columns: &'a Columns<'a>,
    terms: Terms,
    list: &'a mut [u16],
    ahead: usize,
}

impl<'a> OrOpt<'a> {
    // The move at the first piece length from `first` on that has one.
    fn first_move(&self, first: usize) -> Option<Change>
        requires { Asked (lent self.now.columns.now) self.now.terms self.now.list.now }
        ensures { let c = lent self.now.columns.now
            in let t = self.now.terms
            in let xs = self.now.list.now
            in Led (first_move (search_of c t) (judge_of c t) xs (range first 4)) c t xs self.now.ahead result }
    {
        for size in first..4 {
            let best = best_piece(self.columns, self.terms, self.list, size);
            if let Some(change) = best {
                return Some(change);
            }
        }
        None
    }
}

impl<'a> Engine for OrOpt<'a> {
    type Move = Change;

    ghost Frame = { OneList Terms };

    ghost frame = { λ s. record { columns = lent s.columns.now; terms = s.terms; list = s.list.ghost_name; visits = length s.list.now } };

    ghost State = { Sweep (List ℕ) ℕ };

    ghost state = { λ s. at s.list.now s.ahead };

    ghost next = { λ f. next (search_of f.columns f.terms) (judge_of f.columns f.terms) };

    ghost Ready = { λ s. Asked (lent s.columns.now) s.terms s.list.now };

    ghost Apt = { λ s. Apt (lent s.columns.now) s.terms s.list.now };

    ghost before = { λ s m. at s.list.now s.ahead };

    ghost after = { λ s. after s.list.now };

    // At the first piece length ahead in this sweep that has a move or, in a new sweep, at the first of all.
    fn next_move(&mut self) -> Option<Change> {
        let ahead = self.ahead;
        let found = self.first_move(ahead);
        if let Some(change) = found {
            return Some(change);
        }
        self.first_move(1)
    }

    fn make(&mut self, found: Change) {
        move_piece(self.list, found.from, found.size, found.to);
        self.ahead = found.size + 1;
    }

    fn forgo(&mut self, found: Change) {}
}

// Or-opt on one list, in place, until no change gains any more or the limit is used up.
pub fn or_opt_improve(
    columns: &Columns,
    limits: RouteLimits,
    depot: usize,
    list: &mut [u16],
    limit: u32,
) -> Ended
    requires { (depot < columns.now.locations) × Visits columns.now.locations list.old }
    ensures { let c = lent columns.now in
        let run = run_of (or_opt n_minus_length) (checks_of [] c limits depot)
        (float_judge (or_opt n_minus_length) (map_of columns.now.locations columns.now.distances.now depot zero64)) limit list.old in
        (list.new ≡ run.last.now) × (result ≡ ended_as run.word run.moves) }
{
    let needed = route_checks_needed(columns.flags, limits);
    let floor = gain_floor(scale(columns.distances));
    let terms = Terms {
        depot,
        limits,
        needed,
        floor,
    };
    let mut or_opt = OrOpt {
        columns,
        terms,
        list,
        ahead: 4,
    };
    run(&mut or_opt, limit)
}
