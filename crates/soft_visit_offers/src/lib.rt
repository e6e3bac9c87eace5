// A visit of one list offered to another where a day has a soft window (relocate.rs, `best_between_soft`): at each place, unless the list has no room for
// it, or the giver no price without it. Every move is priced whole, on both lists, with the fixed cost saved or paid (crate `soft_places`).

#![tactic(auto)]

ghost use Rattle.std.specs.Prelude.{◌≡◌, ◌<◌, ◌≤◌, length};
ghost use Rattle.loads.specs.Loads.{Loaded};
ghost use Rattle.soft_places.specs.Places.{Prepared, DrivenBy};
ghost use Rattle.soft_visit_offers.specs.Offer.{TwoOf, Known, best_offer};
ghost use Rattle.labels.specs.Lent.{lent};

use deltas_across::fixed_if;
use heads::Head;
use labels::columns::Columns;
use loads::boxes_of;
use numbers::is_finite;
use pairs::Choice;
use relocations::offer::Offer;
use soft_places::{Setup, best_place, giving_delta};

// Two lists, what they are priced at, and the boxes of the one that is to receive a visit.
#[derive(Clone, Copy)]
pub struct Pair {
    pub from: usize,
    pub to: usize,
    pub old_from: f64,
    pub old_to: f64,
    pub load: usize,
}

// The best after the visit at `position` was offered by one list of a pair to the other; `head` is driven over the giver's visits in front of it.
pub fn offer_visit(
    setup: Setup,
    columns: &Columns,
    demand: &[i32],
    giver: &[u16],
    receiver: &[u16],
    buffer: &mut [u16],
    pair: Pair,
    head: Head,
    position: usize,
    best: Choice,
) -> Choice
    requires prepared { Prepared setup (lent columns.now) }
    requires loaded { Loaded columns.now.locations demand.now × (64 ≤ length buffer.old) }
    requires two_of { TwoOf columns.now.locations giver.now receiver.now × (position < length giver.now) }
    requires known { Known (lent columns.now) demand.now setup giver.now receiver.now pair
        × (pair.load ≤ 63000000) }
    requires driven_by { DrivenBy (lent columns.now) setup giver.now head }
    ensures { result ≡ best_offer (lent columns.now) demand.now setup giver.now receiver.now pair position best }
{
    let visit = giver[position];
    let load = pair.load + boxes_of(demand, usize::from(visit));
    if load > setup.capacity {
        return best;
    }
    let giving = giving_delta(setup, columns, giver, buffer, head, pair.old_from, position);
    if !is_finite(giving) {
        return best;
    }
    // What an empty list costs once it is opened.
    let paid = fixed_if(receiver.len() == 0, setup.fixed);
    let offer = Offer {
        from: pair.from,
        position,
        to: pair.to,
        visit,
        removal: giving,
    };
    best_place(
        setup,
        columns,
        receiver,
        buffer,
        offer,
        pair.old_to,
        paid,
        best,
    )
}
