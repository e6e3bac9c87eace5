// Intra-route 3-opt (Lin 1965), ports local_search/three_opt.rs. Places are triples i < j < k, a list being cut behind its visits i, j and k; at a
// place the pieces B and C between the cuts take the least of the seven ways that counts and passes, ties to the lower one; after a move the search starts
// again.

#![tactic(auto)]

ghost use Rattle.std.specs.Prelude.{◌≡◌, true, List, [], ℕ, ◌<◌, ◌≤◌, length};
ghost use Rattle.numbers.specs.Operations.{zero64};
ghost use Rattle.day.specs.Refusal.{all_plain};
ghost use Rattle.labels.specs.Columns.{Visits};
ghost use Rattle.labels.specs.Lent.{lent};
ghost use Rattle.descent.specs.Permitted.{three_opt};
ghost use Rattle.descent.specs.Search.{Sweep, next};
ghost use Rattle.descent.specs.Within.{Cut};
ghost use Rattle.descent.specs.Engines.{run_of};
ghost use Rattle.deltas.specs.Judged.{float_judge};
ghost use Rattle.engine.specs.Engine.{checks_of, map_of, ended_as, OneList, Leads};
ghost use Rattle.reconnections.specs.Reconnections.{Inside};
ghost use Rattle.patterns.specs.Patterns.{search_of, judge_of};
ghost use Rattle.patterns.specs.declared.Setup.{Setup};
ghost use Rattle.three_opt.specs.ThreeOpt.{place_after, at, Ready, Apt, after};

use day::vehicle::RouteLimits;
use day_scans::matrix::{is_symmetric, scale};
use engine::{Ended, Engine, run};
use evaluation::route::route_checks_needed;
use labels::columns::Columns;
use layouts::Way;
use numbers::gain_floor;
use patterns::{Setup, best_pattern};
use reconnections::{Place, make_move};

// The place behind a place.
fn place_after(n: usize, place: Place) -> Place
    requires { Inside n place × (n ≤ 64) }
    ensures { result ≡ place_after n place }
{
    if place.k + 1 < n {
        return Place {
            i: place.i,
            j: place.j,
            k: place.k + 1,
        };
    }
    if place.j + 2 < n {
        return Place {
            i: place.i,
            j: place.j + 1,
            k: place.j + 2,
        };
    }
    Place {
        i: place.i + 1,
        j: place.i + 2,
        k: place.i + 3,
    }
}

// A move that was found.
#[derive(Clone, Copy)]
struct Reconnection {
    place: Place,
    way: Way,
}

// The first move of a sweep: at the first place that has one.
fn first_move(
    setup: Setup,
    columns: &Columns,
    list: &[u16],
    buffer: &mut [u16],
) -> Option<Reconnection>
    requires { Ready (lent columns.now) setup list.now buffer.old }
    ensures { let c = lent columns.now in
        Leads (next (search_of c setup.limits setup.depot) (judge_of c setup.depot) (at list.now))
        (at list.now) (at list.now) (Apt c setup list.now buffer.new) (λ m. at list.now) (after list.now) result }
{
    let mut place = Place { i: 0, j: 1, k: 2 };
    while place.k < list.len() {
        let found = best_pattern(setup, columns, list, buffer, place);
        if let Some(way) = found {
            return Some(Reconnection { place, way });
        }
        place = place_after(list.len(), place);
    }
    None
}

// A run of 3-opt on one list. A sweep starts again after each move.
#[derive(Drop)]
struct ThreeOpt<'c, 'a> {
    columns: &'c Columns<'c>,
    setup: Setup,
    list: &'a mut [u16],
    buffer: &'a mut [u16],
}

impl<'c, 'a> Engine for ThreeOpt<'c, 'a> {
    type Move = Reconnection;

    ghost Frame = { OneList Setup };

    ghost frame = { λ s. record { columns = lent s.columns.now; terms = s.setup; list = s.list.ghost_name; visits = length s.list.now } };

    ghost State = { Sweep (List ℕ) Cut };

    ghost state = { λ s. at s.list.now };

    ghost next = { λ f. next (search_of f.columns f.terms.limits f.terms.depot) (judge_of f.columns f.terms.depot) };

    ghost Ready = { λ s. Ready (lent s.columns.now) s.setup s.list.now s.buffer.now };

    ghost Apt = { λ s. Apt (lent s.columns.now) s.setup s.list.now s.buffer.now };

    ghost before = { λ s m. at s.list.now };

    ghost after = { λ s. after s.list.now };

    fn next_move(&mut self) -> Option<Reconnection> {
        let setup = self.setup;
        let columns = self.columns;
        let list = &mut *self.list;
        let buffer = &mut *self.buffer;
        first_move(setup, columns, list, buffer)
    }

    fn make(&mut self, found: Reconnection) {
        make_move(self.list, self.buffer, found.place, found.way);
    }

    fn forgo(&mut self, found: Reconnection) {}
}

// 3-opt of one list, changed in place, with at most `limit` moves.
pub fn three_opt_improve(
    columns: &Columns,
    limits: RouteLimits,
    depot: usize,
    list: &mut [u16],
    limit: u32,
) -> Ended
    requires depot_lt_l { (depot < columns.now.locations) × Visits columns.now.locations list.old }
    requires distances_value { all_plain columns.now.distances.now ≡ true }
    ensures { let c = lent columns.now in
        let run = run_of three_opt (checks_of [] c limits depot)
        (float_judge three_opt (map_of columns.now.locations columns.now.distances.now depot zero64)) limit list.old
        in (list.new ≡ run.last.now) × (result ≡ ended_as run.word run.moves) }
{
    if list.len() < 4 {
        return Ended::Settled(0);
    }
    let floor = gain_floor(scale(columns.distances));
    let symmetric = is_symmetric(&columns.matrix());
    let needed = route_checks_needed(columns.flags, limits);
    let setup = Setup {
        depot,
        limits,
        floor,
        symmetric,
        needed,
    };
    let mut buffer = [0u16; 64];
    let mut three_opt = ThreeOpt {
        columns,
        setup,
        list,
        buffer: &mut buffer,
    };
    run(&mut three_opt, limit)
}
