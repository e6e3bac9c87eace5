// The clock of a list that carries the driver's break, evaluation/schedule.rs. The break can go at any stop, and the best one depends on the
// windows after it. So the clock keeps two labels: the earliest with the break still to take, and with it taken. To be earlier is never worse.

#![tactic(auto)]

ghost use Rattle.std.specs.Prelude.{◌≡◌, ◌<◌};
ghost use Rattle.labels.specs.Columns.{Visits};
ghost use Rattle.labels.specs.Lent.{lent};
ghost use Rattle.break_clock.specs.Schedule.{begun, pushed, any_left_of, ended, end_of, finished, scheduled};

use day::vehicle::VehicleBreak;
use labels::columns::Columns;
use labels::label::{Label, Taken, at_start, earlier, serve_next, serve_next_rested};

// What the clock tells of a list that is served.
#[derive(Clone, Copy)]
pub struct Scheduled {
    // Depot to depot.
    pub distance: f64,
    // The return to the depot, on the clock that starts at 0.
    pub duration: f64,
    // Time late at soft windows.
    pub lateness: f64,
    // That lateness, times each visit's penalty.
    pub lateness_cost: f64,
    // Where the break goes; None where the van is back by its earliest, or has none to take.
    pub rest: Option<Taken>,
}

// The clock of a list that grows by one visit at a time.
#[derive(Clone, Copy)]
pub struct BreakClock {
    pub rest: VehicleBreak,
    // The break is still to take.
    pub before: Option<Label>,
    // The break is taken.
    pub after: Option<Label>,
    pub prev: usize,
    pub index: usize,
}

// A list that ends with this label.
pub fn end_with(label: Label, taken: Option<Taken>, distance: f64, back: f64) -> Option<Scheduled>
    ensures { result ≡ ended label taken distance back }
{
    Some(Scheduled {
        distance: distance,
        duration: label.time + back,
        lateness: label.lateness,
        lateness_cost: label.lateness_cost,
        rest: taken,
    })
}

// A list that ends here with the break taken, if it got here.
#[tactic(auto, unfolding(crate::specs::Schedule::end_of))]
fn end_of(reached: Option<Label>, distance: f64, back: f64) -> Option<Scheduled>
    ensures { result ≡ end_of reached distance back }
{
    let label = reached?;
    let taken = Taken {
        position: label.position,
        start: label.start,
    };
    end_with(label, Some(taken), distance, back)
}

impl BreakClock {
    // The van at the depot at time 0.
    pub fn new(rest: VehicleBreak, depot: usize) -> Self
        ensures { result ≡ begun rest depot }
    {
        BreakClock {
            rest: rest,
            before: Some(at_start()),
            after: None,
            prev: depot,
            index: 0,
        }
    }

    // Drives on to a visit.
    pub fn push(self, columns: &Columns, visit: usize) -> BreakClock
        requires { (self.prev < columns.now.locations) × (visit < columns.now.locations) × (self.index < 64) }
        ensures { result ≡ pushed (lent columns.now) self visit }
    {
        let rest = self.rest;
        let before = self.before;
        let after = self.after;
        let prev = self.prev;
        let index = self.index;
        let travel = columns.travel_time(prev, visit);
        let stop = columns.stop(visit);
        let skipped = serve_next(before, travel, stop);
        let here = serve_next_rested(before, travel, stop, index, rest);
        let carried = serve_next(after, travel, stop);
        BreakClock {
            rest: rest,
            before: skipped,
            after: earlier(carried, here),
            prev: visit,
            index: index + 1,
        }
    }

    // Whether a label is left: where none is, no longer list can be served.
    #[tactic(auto, unfolding(crate::specs::Schedule::any_left_of))]
    pub fn any_left(self) -> bool
        ensures { result ≡ any_left_of self }
    {
        self.before.is_some() || self.after.is_some()
    }

    // The list of this distance, ended by the return to the depot, whose travel time is `back`. The break is left out where the van is back by its earliest.
    #[tactic(auto, unfolding(crate::specs::Schedule::finished, crate::specs::Schedule::end_before))]
    pub fn finish(self, distance: f64, back: f64) -> Option<Scheduled>
        ensures { result ≡ finished self distance back }
    {
        let rest = self.rest;
        let before = self.before;
        let after = self.after;
        if let Some(label) = before {
            if label.time + back <= rest.earliest {
                return end_with(label, None, distance, back);
            }
        }
        end_of(after, distance, back)
    }
}

// The clock of a list with the break. None where a hard window can't be kept, or the break can't be placed. It stops at the first visit after which no label
// is left.
pub fn schedule(
    columns: &Columns,
    rest: VehicleBreak,
    depot: usize,
    list: &[u16],
) -> Option<Scheduled>
    requires { (depot < columns.now.locations) × Visits columns.now.locations list.now }
    ensures { result ≡ scheduled (lent columns.now) rest depot list.now }
{
    let mut clock = BreakClock::new(rest, depot);
    let mut distance = 0.0;
    let mut place = depot;
    for visit in list {
        let visit = usize::from(*visit);
        distance = distance + columns.distance(place, visit);
        clock = clock.push(columns, visit);
        if !clock.any_left() {
            return None;
        }
        place = visit;
    }
    distance = distance + columns.distance(place, depot);
    let back = columns.travel_time(clock.prev, depot);
    clock.finish(distance, back)
}
