// The label of evaluation/schedule.rs: the van at a stop with its service done, how one stop carries it on, and which of two is earlier.
ghost use Rattle.std.specs.Prelude.{◌≡◌, T};
ghost use Rattle.std.specs.Float.Ieee.{fits};
ghost use Rattle.std.specs.Float.{binary64};
ghost use Rattle.numbers.specs.Operations.{◌⊕◌};
ghost use Rattle.day.specs.Customer.{waiting_time};
ghost use Rattle.day.specs.declared.customer.Window.TheVariants.{Hard, Soft};
ghost use Rattle.labels.specs.Label.{at_start, in_time, too_late, served_in, resting, served, served_rested};
ghost use Rattle.labels.specs.Label.{served_from, served_rested_from, is_earlier, earlier_of};

use crate::stop::Stop;
use day::customer::{TimeWindow, Window};
use day::vehicle::VehicleBreak;
use numbers::larger_of;

// Where the break is taken.
#[derive(Clone, Copy)]
pub struct Taken {
    // It comes before the service of the visit at this position of the list.
    pub position: usize,
    // When it starts.
    pub start: f64,
}

// The van at a stop with its service done.
#[derive(Clone, Copy)]
pub struct Label {
    pub time: f64,
    pub lateness: f64,
    pub lateness_cost: f64,
    // Where the break is taken, and when it starts; 0 while it is still to take.
    pub position: usize,
    pub start: f64,
}

// The van at the depot at time 0.
pub fn at_start() -> Label
    ensures { result ≡ at_start }
{
    Label {
        time: 0.0,
        lateness: 0.0,
        lateness_cost: 0.0,
        position: 0,
        start: 0.0,
    }
}

// A service that starts in time, done.
fn in_time(label: Label, begin: f64, service: f64) -> Option<Label>
    ensures { result ≡ in_time label begin service }
{
    Some(Label {
        time: begin + service,
        lateness: label.lateness,
        lateness_cost: label.lateness_cost,
        position: label.position,
        start: label.start,
    })
}

// A service that starts late at a soft window, done.
fn too_late(label: Label, begin: f64, service: f64, late: f64, penalty: f64) -> Option<Label>
    ensures { result ≡ too_late label begin service late penalty }
{
    Some(Label {
        time: begin + service,
        lateness: label.lateness + late,
        lateness_cost: label.lateness_cost + penalty * late,
        position: label.position,
        start: label.start,
    })
}

// When a service begins for which the van is ready at this time. Whether it waits is asked first: where that is foreseen, the clock need not work the wait
// out. No wait is 0.0, which adds nothing to a time above 0.
fn begin_at(span: TimeWindow, ready: f64) -> f64
    requires { T (fits binary64 ready) }
    ensures { result ≡ ready ⊕ waiting_time span ready }
{
    if ready < span.ready {
        return ready + (span.ready - ready);
    }
    if 0.0 < ready {
        return ready;
    }
    ready + 0.0
}

// The service at a hard window.
fn serve_hard(label: Label, span: TimeWindow, ready: f64, service: f64) -> Option<Label>
    requires { T (fits binary64 ready) }
    ensures { result ≡ served_in (Hard span) label ready service }
{
    if span.is_violated(ready) {
        return None;
    }
    in_time(label, begin_at(span, ready), service)
}

// The service at a soft window.
fn serve_soft(
    label: Label,
    span: TimeWindow,
    penalty: f64,
    ready: f64,
    service: f64,
) -> Option<Label>
    requires { T (fits binary64 ready) }
    ensures { result ≡ served_in (Soft span penalty) label ready service }
{
    let begin = begin_at(span, ready);
    if span.is_violated(ready) {
        return too_late(label, begin, service, span.lateness(ready), penalty);
    }
    in_time(label, begin, service)
}

// The service of a stop for which the van is ready at this time: the wait for its window, and what being late means there.
fn serve_at(label: Label, ready: f64, stop: Stop) -> Option<Label>
    requires { T (fits binary64 ready) }
    ensures { result ≡ served_in stop.window label ready stop.service }
{
    let window = stop.window;
    let service = stop.service;
    match window {
        Window::Open => in_time(label, ready, service),
        Window::Hard(span) => serve_hard(label, span, ready, service),
        Window::Soft(span, penalty) => serve_soft(label, span, penalty, ready, service),
    }
}

// The label of a van that takes its break here.
fn rest_here(label: Label, index: usize, start: f64) -> Label
    ensures { result ≡ resting label index start }
{
    Label {
        time: label.time,
        lateness: label.lateness,
        lateness_cost: label.lateness_cost,
        position: index,
        start: start,
    }
}

// One stop: the travel to it, the wait and the service. None where a hard window closed before the service.
pub fn serve(label: Label, travel: f64, stop: Stop) -> Option<Label>
    ensures { result ≡ served label travel stop }
{
    serve_at(label, label.time + travel, stop)
}

// One stop: the travel to it, the break, the wait and the service. `index` is its position in the list. None where a hard window closed before the service,
// or the break could not start by its latest.
fn serve_rested(
    label: Label,
    travel: f64,
    stop: Stop,
    index: usize,
    rest: VehicleBreak,
) -> Option<Label>
    ensures { result ≡ served_rested label travel stop index rest }
{
    let start = larger_of(label.time + travel, rest.earliest);
    if start > rest.latest {
        return None;
    }
    serve_at(rest_here(label, index, start), start + rest.duration, stop)
}

// One stop more, where the ones before were reached.
#[tactic(auto, unfolding(crate::specs::Label::served_from))]
pub fn serve_next(reached: Option<Label>, travel: f64, stop: Stop) -> Option<Label>
    ensures { result ≡ served_from reached travel stop }
{
    serve(reached?, travel, stop)
}

// One stop more with the break before it, where the ones before were reached.
#[tactic(auto, unfolding(crate::specs::Label::served_rested_from))]
pub fn serve_next_rested(
    reached: Option<Label>,
    travel: f64,
    stop: Stop,
    index: usize,
    rest: VehicleBreak,
) -> Option<Label>
    ensures { result ≡ served_rested_from reached travel stop index rest }
{
    serve_rested(reached?, travel, stop, index, rest)
}

// Whether the second label is the lesser (time, lateness cost).
#[tactic(auto, unfolding(crate::specs::Label::is_earlier))]
fn is_earlier(carried: Label, here: Label) -> bool
    ensures { result ≡ is_earlier carried here }
{
    here.time < carried.time
        || here.time == carried.time && here.lateness_cost < carried.lateness_cost
}

// The earlier of two labels, the cheaper in lateness at equal times. A tie goes to the one carried.
#[tactic(auto, unfolding(crate::specs::Label::earlier_of))]
pub fn earlier(carried: Option<Label>, here: Option<Label>) -> Option<Label>
    ensures { result ≡ earlier_of carried here }
{
    let Some(a) = carried else {
        return here;
    };
    let Some(b) = here else {
        return carried;
    };
    if is_earlier(a, b) {
        return here;
    }
    carried
}
