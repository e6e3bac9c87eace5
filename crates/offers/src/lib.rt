// The best move of a pair of lists (relocate.rs, `best_between`): each visit of the one is offered at each place of the other, unless that has no room
// for it, or what is known of the visit shows that no place gains. Of equal deltas the first in the order (position, place) is taken; the receiver has to
// pass, the giver isn't tested.
//
// The Rust collects the moves that gain, sorts them and takes the first that passes; here the best so far is kept, and a candidate is checked only where
// it is better.

#![tactic(auto)]

ghost use Rattle.std.specs.Prelude.{◌≢◌, ◌<◌, ◌≤◌, length};
ghost use Rattle.lists.specs.Table.{lists};
ghost use Rattle.loads.specs.Loads.{Loaded, Held};
ghost use Rattle.relocations.specs.Relocations.{BestOf};
ghost use Rattle.places.specs.Places.{Prepared};
ghost use Rattle.offers.specs.Offers.{terms_of, Cached};
ghost use Rattle.labels.specs.Lent.{lent};

use insertions::Insertions;
use labels::columns::Columns;
use lists::list_of;
use loads::load_of;
use pairs::Choice;
use places::Setup;
use visit_offers::offer_visit;

// The best move out of a list that has a visit into another. The receiver's load is added up once.
pub fn best_across(
    setup: Setup,
    columns: &Columns,
    demand: &[i32],
    visits: &[u16],
    lengths: &[u16],
    buffer: &mut [u16],
    cache: &mut Insertions,
    from: usize,
    to: usize,
) -> Choice
    requires prepared { Prepared setup (lent columns.now) }
    requires loaded { Loaded columns.now.locations demand.now × Held columns.now.locations visits.now lengths.now }
    requires in_bounds { (64 ≤ length buffer.old) × (from < length lengths.now) × (to < length lengths.now) }
    requires apart { from ≢ to }
    requires cached { Cached (lent columns.now) setup (lists visits.now lengths.now) cache.old }
    ensures best { BestOf (terms_of (lent columns.now) demand.now setup) (lists visits.now lengths.now) from to result }
    ensures cached { Cached (lent columns.now) setup (lists visits.now lengths.now) cache.new }
{
    let giver = list_of(visits, lengths, from);
    let receiver = list_of(visits, lengths, to);
    let load = load_of(columns.locations, demand, receiver);
    let mut best = Choice::none_below(-setup.floor);
    for position in 0..giver.len() {
        best = offer_visit(
            setup, columns, demand, giver, receiver, buffer, cache, from, position, to, load, best,
        );
    }
    best
}
