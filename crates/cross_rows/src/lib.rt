// What the candidates of a row cost with their van, each driven from the head that it shares with the list that it changes: one of the heads that are kept,
// and with a break to take the one head that goes on from candidate to candidate.

#![tactic(auto)]

ghost use Rattle.std.specs.Prelude.{◌≡◌, ◌≤◌, ◌<◌, length};
ghost use Rattle.fleet.specs.Fleet.{Driven};
ghost use Rattle.kept_heads.specs.Kept.{Kept};
ghost use Rattle.loads.specs.Loads.{Two};
ghost use Rattle.cross_candidates.specs.Candidate.{Unbroken};
ghost use Rattle.cross_broken_prices.specs.Broken.{Broken};
ghost use Rattle.cross_rows.specs.Row.{from_at, to_at, Rowed, Costed};
ghost use Rattle.labels.specs.Lent.{lent};

use broken_heads::broken_start;
use cross_broken_prices::broken_candidate;
use cross_candidates::candidate_cost;
use cross_moves::side::Side;
use day::vehicle::{RouteLimits, VehicleBreak};
use labels::columns::Columns;
use numbers::infinite;

// The stretch of a list that each candidate of a row changes: where that of the first begins and ends, and by how much (0 or 1) that of the next does so later.
#[derive(Clone, Copy)]
pub struct Stretch {
    pub from: usize,
    pub to: usize,
    pub from_step: usize,
    pub to_step: usize,
}

impl Stretch {
    // Where the stretch of candidate j begins.
    pub fn start_at(self, j: usize) -> usize
        requires { from_at self j ≤ 63 }
        ensures { result ≡ from_at self j }
    {
        self.from + j * self.from_step
    }

    // Where the stretch of candidate j ends.
    pub fn end_at(self, j: usize) -> usize
        requires { to_at self j ≤ 63 }
        ensures { result ≡ to_at self j }
    {
        self.to + j * self.to_step
    }
}

// The costs of a row with no break to take.
fn unbroken_row(
    columns: &Columns,
    limits: RouteLimits,
    side: &Side,
    own: Stretch,
    other: &[u16],
    others: Stretch,
    skip: &[f64],
    count: usize,
    costs: &mut [f64],
)
    requires driven { Driven columns.now.locations side.now.van × Two columns.now.locations side.now.list.now other.now }
    requires unbroken { Unbroken side.now.van limits × Kept (lent columns.now) side.now.van.depot side.now.list.now side.now.heads.now }
    requires rowed { Rowed (length side.now.list.now) (length other.now) own others count × (count ≤ length skip.now) × (count ≤ length costs.old) }
    ensures { Costed (lent columns.now) side.now.van side.now.list.now own other.now others skip.now count costs.new }
{
    for j in 0..count {
        let mut cost = infinite();
        if skip[j] < infinite() {
            cost = candidate_cost(
                columns,
                limits,
                side,
                own.start_at(j),
                own.end_at(j),
                other,
                others.start_at(j),
                others.end_at(j),
            );
        }
        costs[j] = cost;
    }
}

// The costs of a row with a break to take. The head goes on to where the stretch of each candidate that is asked for begins.
fn broken_row(
    columns: &Columns,
    limits: RouteLimits,
    rest: VehicleBreak,
    side: &Side,
    own: Stretch,
    other: &[u16],
    others: Stretch,
    skip: &[f64],
    count: usize,
    costs: &mut [f64],
)
    requires driven { Driven columns.now.locations side.now.van × Two columns.now.locations side.now.list.now other.now }
    requires broken { Broken side.now.van limits rest }
    requires rowed { Rowed (length side.now.list.now) (length other.now) own others count × (count ≤ length skip.now) × (count ≤ length costs.old) }
    ensures { Costed (lent columns.now) side.now.van side.now.list.now own other.now others skip.now count costs.new }
{
    let van = side.van;
    let list = side.list;
    let mut head = broken_start(rest, van.depot);
    let mut driven = 0;
    for j in 0..count {
        costs[j] = infinite();
        let asked = skip[j] < infinite();
        if !asked {
            continue;
        }
        let from = own.start_at(j);
        let priced = broken_candidate(
            columns,
            van,
            limits,
            rest,
            head,
            driven,
            list,
            from,
            own.end_at(j),
            other,
            others.start_at(j),
            others.end_at(j),
        );
        head = priced.head;
        driven = from;
        costs[j] = priced.cost;
    }
}

// What each candidate of a row costs, infinite where the van doesn't allow its list or its mark in `skip` is infinite.
pub fn row_costs(
    columns: &Columns,
    side: &Side,
    own: Stretch,
    other: &[u16],
    others: Stretch,
    skip: &[f64],
    count: usize,
    costs: &mut [f64],
)
    requires driven { Driven columns.now.locations side.now.van × Two columns.now.locations side.now.list.now other.now }
    requires kept { Kept (lent columns.now) side.now.van.depot side.now.list.now side.now.heads.now
        × Rowed (length side.now.list.now) (length other.now) own others count }
    requires count_in_bounds { (count ≤ length skip.now) × (count ≤ length costs.old) }
    ensures { Costed (lent columns.now) side.now.van side.now.list.now own other.now others skip.now count costs.new }
{
    let limits = RouteLimits::of(side.van);
    let rest = limits.rest;
    match rest {
        None => unbroken_row(
            columns, limits, side, own, other, others, skip, count, costs,
        ),
        Some(pause) => broken_row(
            columns, limits, pause, side, own, other, others, skip, count, costs,
        ),
    }
}
