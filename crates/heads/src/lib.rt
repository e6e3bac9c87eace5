// A head of a list, driven once, so that what lists share isn't driven again. The Rust drives every list whole.
// A walk over a list goes on from where its head ended (labels' `walk-on`). With a break to take, the head stays at the depot.

#![tactic(auto)]

ghost use Rattle.std.specs.Prelude.{◌≡◌, ◌<◌, ◌≤◌, length};
ghost use Rattle.labels.specs.Columns.{Visits};
ghost use Rattle.labels.specs.Lent.{lent};
ghost use Rattle.heads.specs.Head.{at_depot, shared, nearest, Driven, Drove};

use day::vehicle::VehicleBreak;
use labels::columns::Columns;
use labels::label::{Label, at_start, serve};

// The van behind the first visits of a list, all of them served, and no break to take.
#[derive(Clone, Copy)]
pub struct Head {
    pub visits: usize,
    pub distance: f64,
    pub label: Label,
    pub place: usize,
}

// The van at the depot at time 0.
pub fn at_depot(depot: usize) -> Head
    ensures { result ≡ at_depot depot }
{
    Head {
        visits: 0,
        distance: 0.0,
        label: at_start(),
        place: depot,
    }
}

// How far a head may go: nowhere where there is a break to take.
fn shared_visits(rest: Option<VehicleBreak>, to: usize) -> usize
    ensures { result ≡ shared rest to }
{
    match rest {
        None => to,
        Some(_) => 0,
    }
}

// Where to start: at the head, or at the depot where the head goes too far.
fn nearest_start(head: Head, depot: usize, to: usize) -> Head
    ensures { result ≡ nearest head depot to }
{
    if to < head.visits {
        return at_depot(depot);
    }
    head
}

// Drives on from a start over the visits of a list, from one up to another. Ends before a visit that can't be served. Called for a visit or two by the
// searches, it is compiled into them. It is no `Drive::home`, which answers nothing where a visit can't be served, and doesn't say how far it came.
#[inline(always)]
pub fn drive(columns: &Columns, start: Head, list: &[u16], from: usize, to: usize) -> Head
    requires { (start.place < columns.now.locations) × Visits columns.now.locations list.now × (from ≤ to) × (to ≤ length list.now) }
    ensures { Drove (lent columns.now) start list.now from to result }
{
    let mut label = start.label;
    let mut distance = start.distance;
    let mut place = start.place;
    for i in from..to {
        let visit = usize::from(list[i]);
        let leg = columns.distance(place, visit);
        let travel = columns.travel_time(place, visit);
        let stop = columns.stop(visit);
        let reached = serve(label, travel, stop);
        let Some(next) = reached else {
            return Head {
                visits: i,
                distance: distance,
                label: label,
                place: place,
            };
        };
        distance = distance + leg;
        label = next;
        place = visit;
    }
    Head {
        visits: to,
        distance: distance,
        label: label,
        place: place,
    }
}

// The head of at most so many visits. It ends before a visit that can't be served. Compiled into the searches, as `drive` is.
#[inline(always)]
pub fn reach(
    columns: &Columns,
    rest: Option<VehicleBreak>,
    depot: usize,
    list: &[u16],
    head: Head,
    to: usize,
) -> Head
    requires depot_lt_l { (depot < columns.now.locations) × Visits columns.now.locations list.now × (to ≤ length list.now) }
    requires driven { Driven (lent columns.now) rest depot list.now head }
    ensures driven_2 { Driven (lent columns.now) rest depot list.now result }
    ensures visits_le_to { result.visits ≤ to }
{
    let end = shared_visits(rest, to);
    let start = nearest_start(head, depot, end);
    drive(columns, start, list, start.visits, end)
}
