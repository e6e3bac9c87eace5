// A head of a list with the driver's break, driven once, so that what lists share isn't driven again. The Rust drives every list whole.
// A walk over a list goes on from where its head ended (labels' `walk-on`), and where no label is left, none comes again.

#![tactic(auto)]

ghost use Rattle.std.specs.Prelude.{◌≡◌, ◌+◌, ◌<◌};
ghost use Rattle.labels.specs.Walk.{onward, tour_of};
ghost use Rattle.break_clock.specs.Schedule.{begun, tick_break, any_left_of};
ghost use Rattle.numbers.specs.Operations.{zero64};
ghost use Rattle.broken_heads.specs.Head.{reached_as, clock_of, tour_at};
ghost use Rattle.labels.specs.Lent.{lent};

use break_clock::BreakClock;
use day::vehicle::VehicleBreak;
use labels::columns::Columns;
use labels::label::{Label, at_start, earlier, serve_next, serve_next_rested};

// A label, if it is there: 1 in place of an enum's tag, so that a loop carries words alone.
// Not an Option, for speed: with tags, cross-depot on 10 offices of 4 lists took 1.01 of the Rust's time in place of .86 (docs/PROOFS.md, Speed).
#[derive(Clone, Copy)]
pub struct MaybeLabel {
    pub there: usize,
    pub label: Label,
}

// The van behind the first visits of a list, with the labels of its clock.
#[derive(Clone, Copy)]
pub struct BrokenHead {
    pub distance: f64,
    pub rest: VehicleBreak,
    pub before: MaybeLabel,
    pub after: MaybeLabel,
    pub place: usize,
    pub index: usize,
}

// What the clock has for it.
fn reached_as(kept: MaybeLabel) -> Option<Label>
    ensures { result ≡ reached_as kept }
{
    let label = kept.label;
    if kept.there == 1 {
        return Some(label);
    }
    None
}

// And back: what stands for it.
fn label_of(reached: Option<Label>) -> MaybeLabel
    ensures { reached_as result ≡ reached }
{
    match reached {
        None => MaybeLabel {
            there: 0,
            label: at_start(),
        },
        Some(label) => MaybeLabel {
            there: 1,
            label: label,
        },
    }
}

impl BrokenHead {
    // The clock of the list so far.
    pub fn clock(self) -> BreakClock
        ensures { result ≡ clock_of self }
    {
        let rest = self.rest;
        let before = self.before;
        let after = self.after;
        BreakClock {
            rest: rest,
            before: reached_as(before),
            after: reached_as(after),
            prev: self.place,
            index: self.index,
        }
    }

    // Whether a label is left: where none is, no longer list can be served.
    pub fn any_left(self) -> bool
        ensures { result ≡ any_left_of (clock_of self) }
    {
        self.before.there == 1 || self.after.there == 1
    }
}

// The van at the depot at time 0, the break still to take.
pub fn broken_start(rest: VehicleBreak, depot: usize) -> BrokenHead
    ensures { (tour_at result ≡ tour_of zero64 (begun rest depot) depot) × (result.place ≡ depot) × (result.index ≡ 0) }
{
    BrokenHead {
        distance: 0.0,
        rest: rest,
        before: MaybeLabel {
            there: 1,
            label: at_start(),
        },
        after: MaybeLabel {
            there: 0,
            label: at_start(),
        },
        place: depot,
        index: 0,
    }
}

// Drives on to a visit. What the clock's `push` does stands here again: with two callers it would be compiled into the loop of neither.
pub fn next_head(columns: &Columns, head: BrokenHead, visit: usize) -> BrokenHead
    requires { (head.place < columns.now.locations) × (visit < columns.now.locations) × (head.index < 64) }
    ensures { let c = lent columns.now in
        (tour_at result ≡ onward c (tick_break c) (tour_at head) visit) × (result.place ≡ visit) × (result.index ≡ head.index + 1) }
{
    let rest = head.rest;
    let place = head.place;
    let index = head.index;
    let leg = columns.distance(place, visit);
    let travel = columns.travel_time(place, visit);
    let stop = columns.stop(visit);
    let kept_before = head.before;
    let kept_after = head.after;
    let before = reached_as(kept_before);
    let after = reached_as(kept_after);
    let skipped = serve_next(before, travel, stop);
    let here = serve_next_rested(before, travel, stop, index, rest);
    let carried = serve_next(after, travel, stop);
    BrokenHead {
        distance: head.distance + leg,
        rest: rest,
        before: label_of(skipped),
        after: label_of(earlier(carried, here)),
        place: visit,
        index: index + 1,
    }
}
