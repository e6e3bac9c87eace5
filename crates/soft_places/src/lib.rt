// The best place of a list for a visit where a day has a soft window (relocate.rs, `best_between_soft`: the prices and the loop over the places). What a
// visit taken out and put in changes can't be told from its neighbours there, for one put in front of a late one makes it later, so that every list is priced
// whole. Offers at later places share the list's first visits: these are driven once (`heads`), and a list is priced from there on.

#![tactic(auto)]

ghost use Rattle.std.specs.Prelude.{◌≡◌, suc, ◌+◌, ◌-◌, ◌<◌, ◌≤◌, length, take};
ghost use Rattle.edits.specs.Edits.{swapped, without, inserted};
ghost use Rattle.labels.specs.Columns.{Visits};
ghost use Rattle.labels.specs.Lent.{lent};
ghost use Rattle.descent.specs.Order.{range};
ghost use Rattle.soft_places.specs.Prices.{giving_delta};
ghost use Rattle.soft_places.specs.Places.{Prepared, DrivenBy, price_of, best_among};

use buffers::{append, append_one, append_stretch};
use day::vehicle::RouteLimits;
use deltas_across::fixed_if;
use evaluation::route::effective_cost;
use head_prices::price_from;
use heads::{Head, at_depot, reach};
use labels::columns::Columns;
use pairs::Choice;
use relocations::offer::{Offer, better_of};

// What is worked out once before the first move.
#[derive(Clone, Copy)]
pub struct Setup {
    pub depot: usize,
    pub limits: RouteLimits,
    // The boxes a van holds.
    pub capacity: usize,
    // What a list costs that has a visit, as a distance.
    pub fixed: f64,
    // The least gain that counts.
    pub floor: f64,
}

// ---- the two lists of a move

// Builds a list without the visit at a position, at the front of the buffer.
fn removed_into(buffer: &mut [u16], list: &[u16], position: usize) -> usize
    requires { (position < length list.now) × (length list.now ≤ length buffer.old) × (length list.now ≤ 63) }
    ensures value { result ≡ length list.now - 1 }
    ensures buffer_after { take result buffer.new ≡ without list.now position }
{
    let head = append_stretch(buffer, 0, list, 0, position);
    let behind = position + 1;
    append_stretch(buffer, head, list, behind, list.len())
}

// Builds a list with a visit put in before all others, at the front of the buffer.
fn inserted_first(buffer: &mut [u16], list: &[u16], visit: u16) -> usize
    requires { length list.now < length buffer.old }
    ensures value { result ≡ length list.now + 1 }
    ensures buffer_after { take result buffer.new ≡ inserted list.now visit 0 }
{
    let head = append_one(buffer, 0, visit);
    append(buffer, head, list)
}

// The visit at a place goes one place on: it changes places with the one behind it.
fn step_on(buffer: &mut [u16], place: usize)
    requires { (place + 1 < length buffer.old) × (place ≤ 63) }
    ensures { buffer.new ≡ swapped place (place + 1) buffer.old }
{
    buffer.swap(place, place + 1);
}

// ---- prices

// What a list is priced at: its distance plus its lateness cost.
pub fn price_of(setup: Setup, columns: &Columns, list: &[u16]) -> f64
    requires prepared { Prepared setup (lent columns.now) }
    requires visits { Visits columns.now.locations list.now }
    ensures { result ≡ price_of (lent columns.now) setup list.now }
{
    let limits = setup.limits;
    effective_cost(columns, limits, setup.depot, list)
}

// What a list is priced at without the visit at a position: from the end of its head where that ends there, else whole.
fn price_without(
    setup: Setup,
    columns: &Columns,
    list: &[u16],
    buffer: &mut [u16],
    head: Head,
    position: usize,
) -> f64
    requires prepared { Prepared setup (lent columns.now) }
    requires in_bounds { (64 ≤ length buffer.old) × Visits columns.now.locations list.now × (position < length list.now) }
    requires driven_by { DrivenBy (lent columns.now) setup list.now head }
    ensures { result ≡ price_of (lent columns.now) setup (without list.now position) }
{
    if head.visits == position {
        let limits = setup.limits;
        let behind = position + 1;
        return price_from(
            columns,
            limits,
            setup.depot,
            head,
            &list[behind..list.len()],
        );
    }
    let end = removed_into(buffer, list, position);
    price_of(setup, columns, &buffer[0..end])
}

// What taking the visit at a position out of a list changes: its price, and the fixed cost where it was the only one.
pub fn giving_delta(
    setup: Setup,
    columns: &Columns,
    list: &[u16],
    buffer: &mut [u16],
    head: Head,
    old: f64,
    position: usize,
) -> f64
    requires prepared { Prepared setup (lent columns.now) }
    requires in_bounds { (64 ≤ length buffer.old) × Visits columns.now.locations list.now × (position < length list.now) }
    requires driven_by { DrivenBy (lent columns.now) setup list.now head }
    requires value { old ≡ price_of (lent columns.now) setup list.now }
    ensures { result ≡ giving_delta (price_of (lent columns.now) setup) setup.fixed list.now position }
{
    let new = price_without(setup, columns, list, buffer, head, position);
    // What a list no longer costs once it is emptied.
    let saved = fixed_if(list.len() == 1, setup.fixed);
    new - old - saved
}

// ---- an offer to a list

// The best after an offer at every place of a list, which is priced at `old`; `paid` is the fixed cost where it is empty. The visit is put in before all
// others, and goes on place by place; the list's head goes on with it.
pub fn best_place(
    setup: Setup,
    columns: &Columns,
    list: &[u16],
    buffer: &mut [u16],
    offer: Offer,
    old: f64,
    paid: f64,
    best: Choice,
) -> Choice
    requires prepared { Prepared setup (lent columns.now) }
    requires in_bounds { 64 ≤ length buffer.old }
    requires visits { Visits columns.now.locations list.now × (length list.now < 63) × (offer.visit < columns.now.locations) }
    ensures { result ≡ best_among (price_of (lent columns.now) setup) old paid list.now offer (range 0 (suc (length list.now))) best }
{
    let limits = setup.limits;
    let rest = limits.rest;
    let end = inserted_first(buffer, list, offer.visit);
    let mut head = at_depot(setup.depot);
    let mut after = best;
    let mut place = 0;
    // No counted loop: the visit goes on between two places, so that the turn of the last place ends in its middle.
    loop {
        head = reach(columns, rest, setup.depot, list, head, place);
        let from = head.visits;
        let new = price_from(columns, limits, setup.depot, head, &buffer[from..end]);
        let insertion = new - old + paid;
        after = better_of(offer, insertion, || true, after, place);
        if place == list.len() {
            return after;
        }
        step_on(buffer, place);
        place += 1;
    }
}
