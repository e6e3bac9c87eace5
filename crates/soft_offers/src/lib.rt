// The best move of a pair of lists where a day has a soft window (relocate.rs, `best_between_soft`): each visit of the one is offered at each place of the
// other (crate `soft_visit_offers`). A list that has no price isn't moved into or out of. Later visits share the giver's first ones: these are driven once
// (`heads`).

#![tactic(auto)]

ghost use Rattle.std.specs.Prelude.{◌≡◌, ◌≢◌, ◌<◌, ◌≤◌, length, get_or};
ghost use Rattle.descent.specs.Order.{range};
ghost use Rattle.lists.specs.Table.{lists};
ghost use Rattle.loads.specs.Loads.{Loaded, Held};
ghost use Rattle.pairs.specs.Pairs.{nothing};
ghost use Rattle.relocations.specs.Relocations.{BestOf};
ghost use Rattle.soft_places.specs.Places.{Prepared};
ghost use Rattle.soft_visit_offers.specs.Offer.{TwoOf, Known};
ghost use Rattle.soft_offers.specs.Offers.{bound, terms_of, best_offers, best_priced};
ghost use Rattle.labels.specs.Lent.{lent};

use heads::{at_depot, reach};
use labels::columns::Columns;
use lists::list_of;
use loads::load_of;
use numbers::is_finite;
use pairs::Choice;
use soft_places::{Setup, price_of};
use soft_visit_offers::{Pair, offer_visit};

// The best move of a pair of lists that have a price.
fn best_of_pair(
    setup: Setup,
    columns: &Columns,
    demand: &[i32],
    giver: &[u16],
    receiver: &[u16],
    buffer: &mut [u16],
    pair: Pair,
) -> Choice
    requires prepared { Prepared setup (lent columns.now) }
    requires loaded { Loaded columns.now.locations demand.now × (64 ≤ length buffer.old) }
    requires two_of { TwoOf columns.now.locations giver.now receiver.now }
    requires known { Known (lent columns.now) demand.now setup giver.now receiver.now pair
        × (pair.load ≤ 63000000) }
    ensures { result ≡ best_offers (lent columns.now)
        demand.now setup giver.now receiver.now pair (range 0 (length giver.now)) (nothing (bound setup)) }
{
    let limits = setup.limits;
    let rest = limits.rest;
    let mut best = Choice::none_below(-setup.floor);
    let mut head = at_depot(setup.depot);
    for position in 0..giver.len() {
        head = reach(columns, rest, setup.depot, giver, head, position);
        best = offer_visit(
            setup, columns, demand, giver, receiver, buffer, pair, head, position, best,
        );
    }
    best
}

// The best move of two lists: none where one of them has no price.
fn best_priced(
    setup: Setup,
    columns: &Columns,
    demand: &[i32],
    giver: &[u16],
    receiver: &[u16],
    buffer: &mut [u16],
    from: usize,
    to: usize,
) -> Choice
    requires prepared { Prepared setup (lent columns.now) }
    requires loaded { Loaded columns.now.locations demand.now × (64 ≤ length buffer.old) }
    requires two_of { TwoOf columns.now.locations giver.now receiver.now }
    ensures { result ≡ best_priced (lent columns.now) demand.now setup giver.now receiver.now from to }
{
    let old_from = price_of(setup, columns, giver);
    let old_to = price_of(setup, columns, receiver);
    if !is_finite(old_from) || !is_finite(old_to) {
        return Choice::none_below(-setup.floor);
    }
    let load = load_of(columns.locations, demand, receiver);
    let pair = Pair {
        from,
        to,
        old_from,
        old_to,
        load,
    };
    best_of_pair(setup, columns, demand, giver, receiver, buffer, pair)
}

// The best move out of a list that has a visit into another.
pub fn best_across(
    setup: Setup,
    columns: &Columns,
    demand: &[i32],
    visits: &[u16],
    lengths: &[u16],
    buffer: &mut [u16],
    from: usize,
    to: usize,
) -> Choice
    requires prepared { Prepared setup (lent columns.now) }
    requires loaded { Loaded columns.now.locations demand.now × Held columns.now.locations visits.now lengths.now }
    requires in_bounds { (64 ≤ length buffer.old) × (from < length lengths.now) × (to < length lengths.now) }
    requires apart { (from ≢ to) × (get_or lengths.now from 0 ≢ 0) }
    ensures { BestOf (terms_of (lent columns.now) demand.now setup) (lists visits.now lengths.now) from to result }
{
    let giver = list_of(visits, lengths, from);
    let receiver = list_of(visits, lengths, to);
    best_priced(setup, columns, demand, giver, receiver, buffer, from, to)
}
