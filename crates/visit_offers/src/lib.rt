// A visit of one list offered to another (relocate.rs, `best_between`): each place is tried, unless the list has no room for the visit, or what is known of
// it shows that no place gains.

#![tactic(auto)]

ghost use Rattle.std.specs.Prelude.{◌≡◌, ◌<◌, ◌≤◌, length, get_or};
ghost use Rattle.labels.specs.Columns.{Visits};
ghost use Rattle.labels.specs.Lent.{lent};
ghost use Rattle.loads.specs.Loads.{Loaded};
ghost use Rattle.insertions.specs.Cache.{known_at, Noted};
ghost use Rattle.places.specs.Places.{Prepared};
ghost use Rattle.visit_offers.specs.Tried.{tried};

use deltas_across::removal_delta;
use insertions::{Insertions, Least};
use labels::columns::Columns;
use loads::boxes_of;
use pairs::Choice;
use places::{Setup, Tried, best_place, is_ruled_out};
use relocations::offer::Offer;

// The best after the visit at `position` of list `from` was offered to list `to`, whose load is `load`, and what is known of it then.
fn try_visit(
    setup: Setup,
    columns: &Columns,
    demand: &[i32],
    giver: &[u16],
    receiver: &[u16],
    buffer: &mut [u16],
    from: usize,
    position: usize,
    to: usize,
    load: usize,
    known: Least,
    best: Choice,
) -> Tried
    requires prepared { Prepared setup (lent columns.now) }
    requires loaded { Loaded columns.now.locations demand.now × (64 ≤ length buffer.old) × (load ≤ 63000000) }
    requires visits { Visits columns.now.locations giver.now × (position < length giver.now) }
    requires visits_2 { Visits columns.now.locations receiver.now × (length receiver.now < 63) }
    ensures { result ≡ tried (lent columns.now) demand.now setup giver.now receiver.now load from position to best known }
{
    let visit = giver[position];
    if load + boxes_of(demand, usize::from(visit)) > setup.capacity {
        return Tried { best, least: known };
    }
    // What a list no longer costs once it is emptied.
    let saved = setup.fixed;
    let removal = removal_delta(&columns.matrix(), setup.depot, saved, giver, position);
    if is_ruled_out(setup, removal, known.figure) {
        return Tried { best, least: known };
    }
    let offer = Offer {
        from,
        position,
        to,
        visit,
        removal,
    };
    best_place(setup, columns, receiver, buffer, offer, best)
}

// The same with the cache: what is known is read before, and noted after.
pub fn offer_visit(
    setup: Setup,
    columns: &Columns,
    demand: &[i32],
    giver: &[u16],
    receiver: &[u16],
    buffer: &mut [u16],
    cache: &mut Insertions,
    from: usize,
    position: usize,
    to: usize,
    load: usize,
    best: Choice,
) -> Choice
    requires prepared { Prepared setup (lent columns.now) }
    requires loaded { Loaded columns.now.locations demand.now × (64 ≤ length buffer.old) × (load ≤ 63000000) }
    requires visits { Visits columns.now.locations giver.now × (position < length giver.now) }
    requires visits_2 { Visits columns.now.locations receiver.now × (length receiver.now < 63) }
    requires to_bound { to < 16 }
    ensures { let visit = get_or giver.now position 0 in
        let t = tried (lent columns.now) demand.now setup giver.now receiver.now load from position to best (known_at cache.old visit to)
        in (result ≡ t.best) × Noted visit to t.least cache.old cache.new }
{
    let visit = usize::from(giver[position]);
    let known = cache.known(visit, to);
    let tried = try_visit(
        setup, columns, demand, giver, receiver, buffer, from, position, to, load, known, best,
    );
    cache.note(visit, to, tried.least);
    tried.best
}
