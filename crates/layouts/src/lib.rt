// A list in four pieces A, B, C and D, of which B and C change places or are turned round: every candidate within a list is one. It is laid out in a
// buffer; or it is driven from a head of the list without being built, and ends where a visit can't be served, as most candidates soon do.

#![tactic(auto)]

ghost use Rattle.std.specs.Prelude.{◌≡◌, true, false, ◌+◌, ◌-◌, ◌<◌, ◌≤◌, length, take, drop, get_or};
ghost use Rattle.std.proofs.Math.Seq.{slice};
ghost use Rattle.edits.specs.Edits.{Appended};
ghost use Rattle.labels.specs.Columns.{Visits};
ghost use Rattle.labels.specs.Lent.{lent};
ghost use Rattle.evaluation.specs.Route.{feasible};
ghost use Rattle.heads.specs.Head.{Driven};
ghost use Rattle.descent.specs.Permitted.{turn};
ghost use Rattle.engine.specs.Engine.{passing};
ghost use Rattle.layouts.specs.Layout.{arrangement, nth_way, layout, laid, CutIn, passes_from};

use buffers::{append, append_stretch, append_stretch_reversed};
use day::vehicle::{RouteLimits, VehicleBreak};
use evaluation::route::route_feasible;
use heads::{Head, reach};
use labels::columns::Columns;
use labels::label::serve;
use stops::visit_at;

// How two pieces are arranged.
#[derive(Clone, Copy)]
pub struct Way {
    pub exchanged: bool,
    pub b_turned: bool,
    pub c_turned: bool,
}

// B and C change places; and B is turned round where it stands.
pub const EXCHANGED: Way = Way {
    exchanged: true,
    b_turned: false,
    c_turned: false,
};

pub const B_TURNED: Way = Way {
    exchanged: false,
    b_turned: true,
    c_turned: false,
};

// All ways but the one that changes nothing, in the order of the Rust's patterns 1 to 7.
pub const WAYS: [Way; 7] = [
    Way {
        exchanged: false,
        b_turned: false,
        c_turned: true,
    },
    Way {
        exchanged: false,
        b_turned: true,
        c_turned: false,
    },
    Way {
        exchanged: false,
        b_turned: true,
        c_turned: true,
    },
    Way {
        exchanged: true,
        b_turned: false,
        c_turned: false,
    },
    Way {
        exchanged: true,
        b_turned: true,
        c_turned: false,
    },
    Way {
        exchanged: true,
        b_turned: false,
        c_turned: true,
    },
    Way {
        exchanged: true,
        b_turned: true,
        c_turned: true,
    },
];

// Where the pieces B, C and D begin, and how B and C are arranged.
#[derive(Clone, Copy)]
pub struct Layout {
    pub b: usize,
    pub c: usize,
    pub d: usize,
    pub way: Way,
}

// A way by its number.
#[inline]
pub fn nth_way(number: usize) -> Way
    requires { number < 7 }
    ensures { arrangement result ≡ nth_way number }
{
    WAYS[number]
}

// The list cut behind its visits i, j and k, and reconnected in a way.
pub fn reconnection(i: usize, j: usize, k: usize, way: Way) -> Layout
    requires { (i < usize.MAX) × (j < usize.MAX) × (k < usize.MAX) }
    ensures { result ≡ layout (i + 1) (j + 1) (k + 1) (arrangement way) }
{
    Layout {
        b: i + 1,
        c: j + 1,
        d: k + 1,
        way,
    }
}

// The visits from `first` up to, not including, `end` turned round: C is empty.
pub fn reversal(first: usize, end: usize) -> Layout
    ensures { result ≡ layout first end end (false, true, false) }
{
    Layout {
        b: first,
        c: end,
        d: end,
        way: B_TURNED,
    }
}

// ---- built

// Appends a stretch of the list, as it is or turned round: the Rust's `push_piece`.
fn append_piece(
    buffer: &mut [u16],
    count: usize,
    list: &[u16],
    from: usize,
    to: usize,
    turned: bool,
) -> usize
    requires from_le_to { (from ≤ to) × (to ≤ length list.now) }
    requires from_in_bounds { count + (to - from) ≤ length buffer.old }
    ensures value { result ≡ count + (to - from) }
    ensures appended { Appended count (turn turned (slice from to list.now)) buffer.old result buffer.new }
{
    if turned {
        return append_stretch_reversed(buffer, count, list, from, to);
    }
    append_stretch(buffer, count, list, from, to)
}

// Lays the list out in the buffer's first places, from a place of A on: the rest of A, B and C as they are arranged, and D.
pub fn lay_out(buffer: &mut [u16], list: &[u16], p: Layout, from: usize)
    requires list_in_bounds { length list.now ≤ length buffer.old }
    requires cut_in { CutIn (length list.now) p × (from ≤ p.b) }
    ensures { take (length list.now - from) buffer.new ≡ drop from (laid list.now p) }
{
    let a_end = append_stretch(buffer, 0, list, from, p.b);
    if p.way.exchanged {
        let c_end = append_piece(buffer, a_end, list, p.c, p.d, p.way.c_turned);
        let b_end = append_piece(buffer, c_end, list, p.b, p.c, p.way.b_turned);
        append_stretch(buffer, b_end, list, p.d, list.len());
        return;
    }
    let b_end = append_piece(buffer, a_end, list, p.b, p.c, p.way.b_turned);
    let c_end = append_piece(buffer, b_end, list, p.c, p.d, p.way.c_turned);
    append_stretch(buffer, c_end, list, p.d, list.len());
}

// Makes the list as it is laid out: it is built in the buffer and copied back.
pub fn rearrange(list: &mut [u16], buffer: &mut [u16], p: Layout)
    requires { CutIn (length list.old) p × (length list.old ≤ length buffer.old) }
    ensures { list.new ≡ laid list.old p }
{
    let n = list.len();
    lay_out(buffer, list, p, 0);
    append(list, 0, &buffer[0..n]);
}

// ---- driven as it is read

// The visit at a position of a stretch, as it is or turned round.
fn visit_of_stretch(list: &[u16], from: usize, to: usize, turned: bool, i: usize) -> usize
    requires { (from ≤ to) × (to ≤ length list.now) × (i < to - from) }
    ensures { result ≡ get_or (turn turned (slice from to list.now)) i 0 }
{
    if turned {
        return visit_at(list, to - 1 - i);
    }
    visit_at(list, from + i)
}

// The visit at a position of the list as it is laid out.
fn visit_laid(list: &[u16], p: Layout, k: usize) -> usize
    requires { CutIn (length list.now) p × (k < length list.now) }
    ensures { result ≡ get_or (laid list.now p) k 0 }
{
    if k < p.b {
        return visit_at(list, k);
    }
    if p.d <= k {
        return visit_at(list, k);
    }
    if p.way.exchanged {
        let middle = p.b + (p.d - p.c);
        if k < middle {
            return visit_of_stretch(list, p.c, p.d, p.way.c_turned, k - p.b);
        }
        return visit_of_stretch(list, p.b, p.c, p.way.b_turned, k - middle);
    }
    if k < p.c {
        return visit_of_stretch(list, p.b, p.c, p.way.b_turned, k - p.b);
    }
    visit_of_stretch(list, p.c, p.d, p.way.c_turned, k - p.c)
}

// Whether the list as it is laid out passes with no break to take, driven from the end of a head that it shares. A loop of its own beside `Drive::home`,
// whose visits stand in a slice: these are read by position, so that no list is built.
fn passes_from(
    columns: &Columns,
    limits: RouteLimits,
    depot: usize,
    list: &[u16],
    head: Head,
    p: Layout,
) -> bool
    requires depot_lt_l { (depot < columns.now.locations) × Visits columns.now.locations list.now }
    requires cut_in { CutIn (length list.now) p × (head.place < columns.now.locations) }
    ensures { result ≡ passes_from (lent columns.now) limits depot head (laid list.now p) }
{
    let mut label = head.label;
    let mut distance = head.distance;
    let mut place = head.place;
    for i in head.visits..list.len() {
        let visit = visit_laid(list, p, i);
        distance = distance + columns.distance(place, visit);
        let travel = columns.travel_time(place, visit);
        let stop = columns.stop(visit);
        let reached = serve(label, travel, stop);
        let Some(next) = reached else {
            return false;
        };
        label = next;
        place = visit;
    }
    distance = distance + columns.distance(place, depot);
    let back = columns.travel_time(place, depot);
    limits.allow(distance, label.time + back)
}

// ---- a candidate

// Whether the list as it is laid out passes, built in a buffer and checked whole.
fn built_passes(
    columns: &Columns,
    limits: RouteLimits,
    depot: usize,
    list: &[u16],
    p: Layout,
) -> bool
    requires { (depot < columns.now.locations) × Visits columns.now.locations list.now × CutIn (length list.now) p }
    ensures { result ≡ feasible (lent columns.now) limits depot (laid list.now p) }
{
    let mut buffer = [0u16; 64];
    let n = list.len();
    lay_out(&mut buffer, list, p, 0);
    route_feasible(columns, limits, depot, &buffer[0..n])
}

// Whether the list as it is laid out passes. Where no check is needed it does; with a break to take it is built.
pub fn laid_passes(
    needed: bool,
    columns: &Columns,
    limits: RouteLimits,
    depot: usize,
    list: &[u16],
    head: Head,
    p: Layout,
) -> bool
    requires depot_lt_l { (depot < columns.now.locations) × Visits columns.now.locations list.now × CutIn (length list.now) p }
    requires driven { Driven (lent columns.now) limits.rest depot list.now head × (head.visits ≤ p.b) }
    ensures { result ≡ passing needed (lent columns.now) limits depot (laid list.now p) }
{
    if !needed {
        return true;
    }
    let rest = limits.rest;
    match rest {
        None => passes_from(columns, limits, depot, list, head, p),
        Some(_) => built_passes(columns, limits, depot, list, p),
    }
}

// The head of a list up to a position, kept where it is there already or candidates need no check.
pub fn head_up_to(
    needed: bool,
    columns: &Columns,
    rest: Option<VehicleBreak>,
    depot: usize,
    list: &[u16],
    head: Head,
    to: usize,
) -> Head
    requires depot_lt_l { (depot < columns.now.locations) × Visits columns.now.locations list.now × (to ≤ length list.now) }
    requires driven { Driven (lent columns.now) rest depot list.now head × (head.visits ≤ to) }
    ensures driven_2 { Driven (lent columns.now) rest depot list.now result }
    ensures visits_le_to { result.visits ≤ to }
{
    if !needed {
        return head;
    }
    if head.visits == to {
        return head;
    }
    reach(columns, rest, depot, list, head, to)
}
