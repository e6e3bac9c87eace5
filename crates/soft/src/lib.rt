// local_search/soft.rs: the search within a list where a day has a soft window, steepest descent over the effective cost. A pass (soft_neighbours)
// finds the neighbour of least cost; it is made in the list, and the next pass begins from there.

#![tactic(auto)]

ghost use Rattle.std.specs.Prelude.{◌≡◌, List, ℕ, ◌<◌, ◌≤◌, length};
ghost use Rattle.numbers.specs.Floor.{gain_floor};
ghost use Rattle.day.specs.Matrix.{scale_of};
ghost use Rattle.labels.specs.Columns.{Visits};
ghost use Rattle.labels.specs.Lent.{lent};
ghost use Rattle.descent.specs.Search.{Sweep};
ghost use Rattle.engine.specs.Engine.{ended_as, OneList};
ghost use Rattle.soft.specs.Soft.{soft_next, soft_run};
ghost use Rattle.soft.specs.Pass.{at, Ready, Apt, after};
ghost use Rattle.soft.specs.declared.Terms.{Terms};

use day::vehicle::RouteLimits;
use day_scans::matrix::scale;
use engine::{Ended, Engine, run};
use evaluation::route::effective_cost;
use labels::columns::Columns;
use neighbours::{Neighbourhood, make};
use numbers::gain_floor;
use soft_neighbours::best_neighbour;
use std::marker::PhantomData;

// What stays the same over a run.
#[derive(Clone, Copy)]
struct Terms {
    limits: RouteLimits,
    depot: usize,
    // The gain below which a neighbour does not count.
    floor: f64,
}

// A neighbour that was found, and what it costs.
#[derive(Clone, Copy)]
struct Found<P> {
    at: P,
    cost: f64,
}

// A run in one neighbourhood. The cost of a list is the price of the neighbour that it was.
#[derive(Drop)]
struct Soft<'c, 'a, N> {
    columns: &'c Columns<'c>,
    terms: Terms,
    cost: f64,
    list: &'a mut [u16],
    buffer: &'a mut [u16],
    moves_in: PhantomData<N>,
}

impl<'c, 'a, N: Neighbourhood> Engine for Soft<'c, 'a, N> {
    type Move = Found<N::Place>;

    ghost Frame = { OneList Terms };

    ghost frame = { λ s. record { columns = lent s.columns.now; terms = s.terms; list = s.list.ghost_name; visits = length s.list.now } };

    ghost State = { Sweep (List ℕ) Unit };

    ghost state = { λ s. at s.list.now };

    ghost next = { λ f. soft_next N.which f.columns f.terms.limits f.terms.depot f.terms.floor };

    ghost Ready = { λ s. Ready (lent s.columns.now) s.terms s.list.now s.buffer.now s.cost };

    ghost Apt = { λ s. Apt N.place (lent s.columns.now) s.terms s.list.now s.buffer.now };

    ghost before = { λ s m. at s.list.now };

    ghost after = { λ s. after N.place s.list.now };

    fn next_move(&mut self) -> Option<Found<N::Place>> {
        let columns = self.columns;
        let Terms {
            limits,
            depot,
            floor,
        } = self.terms;
        let cost = self.cost;
        let list = &mut *self.list;
        let buffer = &mut *self.buffer;
        let best = best_neighbour::<N>(columns, limits, depot, list, buffer, cost, floor);
        let found = best.found;
        let Some(at) = found else {
            return None;
        };
        Some(Found {
            at,
            cost: best.bound,
        })
    }

    fn make(&mut self, found: Found<N::Place>) {
        make::<N>(self.list, self.buffer, found.at);
        self.cost = found.cost;
    }

    fn forgo(&mut self, found: Found<N::Place>) {}
}

// Steepest descent over the effective cost, in one neighbourhood. The list is changed in place.
pub fn improve<N: Neighbourhood>(
    columns: &Columns,
    limits: RouteLimits,
    depot: usize,
    list: &mut [u16],
    limit: u32,
) -> Ended
    requires { (depot < columns.now.locations) × Visits columns.now.locations list.old }
    ensures { let run = soft_run N.which (lent columns.now) limits depot (gain_floor (scale_of columns.now.distances.now)) limit list.old in
        (list.new ≡ run.last.now) × (result ≡ ended_as run.word run.moves) }
{
    let floor = gain_floor(scale(columns.distances));
    let terms = Terms {
        limits,
        depot,
        floor,
    };
    let cost = effective_cost(columns, limits, depot, list);
    let mut buffer = [0u16; 64];
    let mut soft: Soft<N> = Soft {
        columns,
        terms,
        cost,
        list,
        buffer: &mut buffer,
        moves_in: PhantomData,
    };
    run(&mut soft, limit)
}
