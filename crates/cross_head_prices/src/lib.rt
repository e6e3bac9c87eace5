// What a list costs with its van and no break to take, its head driven: a stretch of another list and then its own last visits follow the head.

#![tactic(auto)]

ghost use Rattle.std.specs.Prelude.{◌≡◌, ◌≤◌, ◌<◌, length, drop};
ghost use Rattle.std.proofs.Math.Seq.{slice};
ghost use Rattle.fleet.specs.Fleet.{Driven};
ghost use Rattle.loads.specs.Loads.{Two};
ghost use Rattle.cross_head_prices.specs.Prices.{ended_price, price_on};
ghost use Rattle.labels.specs.Lent.{lent};

use day::vehicle::{RouteLimits, Van};
use heads::{Head, drive};
use labels::columns::Columns;
use labels::label::Label;

// What a list costs that ends with this label, if the van allows it.
fn ended_price(van: Van, limits: RouteLimits, label: Label, distance: f64, back: f64) -> Option<f64>
    ensures { result ≡ ended_price van limits label distance back }
{
    if limits.allow(distance, label.time + back) {
        return Some(van.route_cost(distance + label.lateness_cost));
    }
    None
}

// What a list costs with no break to take: its head, then a stretch of another list, then its visits from `to` on.
pub fn price_from(
    columns: &Columns,
    van: Van,
    limits: RouteLimits,
    head: Head,
    list: &[u16],
    to: usize,
    other: &[u16],
    other_from: usize,
    other_to: usize,
) -> Option<f64>
    requires driven { Driven columns.now.locations van × Two columns.now.locations list.now other.now }
    requires place_lt_l { (head.place < columns.now.locations) × (to ≤ length list.now) × (other_from ≤ other_to) × (other_to ≤ length other.now) }
    ensures { result ≡ price_on (lent columns.now) van limits head (slice other_from other_to other.now) (drop to list.now) }
{
    let part = drive(columns, head, other, other_from, other_to);
    if part.visits < other_to {
        return None;
    }
    let whole = drive(columns, part, list, to, list.len());
    if whole.visits < list.len() {
        return None;
    }
    let depot = van.depot;
    let distance = whole.distance + columns.distance(whole.place, depot);
    let back = columns.travel_time(whole.place, depot);
    ended_price(van, limits, whole.label, distance, back)
}
