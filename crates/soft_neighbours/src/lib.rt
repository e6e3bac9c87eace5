// Ports parts of local_search/soft.rs: one pass over the neighbours of a list, where a day has a soft window. A move that shortens a list can make its
// van late, and one that lengthens it can save the lateness, so every neighbour is priced whole, and the one of least effective cost is taken.
//
// The Rust's closure over all neighbours is a loop over places here, each a layout of the list (neighbours) in one lent buffer. A
// neighbour keeps the list's first visits: their head is driven once for all that share it. The best so far is kept by its numbers alone.
// Each neighbourhood has a loop of its own.

#![tactic(auto)]

ghost use Rattle.std.specs.Prelude.{◌≡◌, ◌<◌, ◌≤◌, length};
ghost use Rattle.labels.specs.Columns.{Visits};
ghost use Rattle.labels.specs.Lent.{lent};
ghost use Rattle.evaluation.specs.Route.{effective_cost};
ghost use Rattle.heads.specs.Head.{Driven};
ghost use Rattle.descent.specs.Search.{taken};
ghost use Rattle.neighbours.specs.Neighbours.{made};
ghost use Rattle.neighbours.specs.Places.{meant, Inside};
ghost use Rattle.soft_neighbours.specs.SoftSearch.{soft_search, soft_judge};
ghost use Rattle.soft_neighbours.specs.Chosen.{chosen, Known};

use day::vehicle::RouteLimits;
use engine::best::Best;
use head_prices::price_from;
use heads::{Head, at_depot, reach};
use labels::columns::Columns;
use layouts::lay_out;
use neighbours::Neighbourhood;

// The price of a neighbour, and the head of the list that it shares.
#[derive(Clone, Copy)]
pub struct Priced {
    pub price: f64,
    pub head: Head,
}

// What the neighbour at a place costs, priced from the end of the head that it shares with the list.
fn price_of<N: Neighbourhood>(
    columns: &Columns,
    limits: RouteLimits,
    depot: usize,
    list: &[u16],
    buffer: &mut [u16],
    last: Head,
    at: N::Place,
) -> Priced
    requires depot_lt_l { (depot < columns.now.locations) × Visits columns.now.locations list.now }
    requires list_in_bounds { (length list.now ≤ length buffer.old) × Inside (length list.now) (N.place at) }
    requires driven { Driven (lent columns.now) limits.rest depot list.now last }
    ensures { let c = lent columns.now in
        (result.price ≡ effective_cost c limits depot (made list.now (meant (N.place at))))
        × Driven c limits.rest depot list.now result.head }
{
    let n = list.len();
    let p = N::layout(n, at);
    let rest = limits.rest;
    let head = reach(columns, rest, depot, list, last, p.b);
    let from = head.visits;
    lay_out(buffer, list, p, from);
    let count = n - from;
    let price = price_from(columns, limits, depot, head, &buffer[0..count]);
    Priced { price, head }
}

// One pass: the first least of the neighbours that beat the list's cost by more than the floor.
pub fn best_neighbour<N: Neighbourhood>(
    columns: &Columns,
    limits: RouteLimits,
    depot: usize,
    list: &[u16],
    buffer: &mut [u16],
    cost: f64,
    floor: f64,
) -> Best<N::Place>
    requires depot_lt_l { (depot < columns.now.locations) × Visits columns.now.locations list.now }
    requires list_in_bounds { length list.now ≤ length buffer.old }
    requires cost_value { cost ≡ effective_cost (lent columns.now) limits depot list.now }
    ensures { let price = effective_cost (lent columns.now) limits depot in
        let xs = list.now in
        (chosen N.place result.found ≡ taken (soft_search N.which) (soft_judge price floor) xs tt)
        × Known N.place (λ m. price (made xs m)) (length xs) result }
{
    let n = list.len();
    let mut best = Best::below(cost - floor);
    let mut head = at_depot(depot);
    let mut here = N::first(n);
    while let Some(at) = here {
        let priced = price_of::<N>(columns, limits, depot, list, buffer, head, at);
        head = priced.head;
        best = best.or(priced.price, at);
        here = N::after(n, at);
    }
    best
}
