// What a relocation makes of the tables (relocate.rs, `Relocations::moved`): the visit goes to its new list, and the cache of insertions follows.

#![tactic(auto)]

ghost use Rattle.std.specs.Prelude.{◌≡◌, ◌<◌, length, get_or};
ghost use Rattle.labels.specs.Columns.{leg_in};
ghost use Rattle.lists.specs.Table.{Laid, lists, list_of};
ghost use Rattle.list_changes.specs.Edits.{Edited, Relocates, relocated};
ghost use Rattle.deltas.specs.Deltas.{insertion_delta};
ghost use Rattle.insertions.specs.Cache.{Known};
ghost use Rattle.loads.specs.Loads.{Held};
ghost use Rattle.labels.specs.Lent.{lent};

use insertions::Insertions;
use labels::columns::Columns;
use list_changes::move_visit;
use lists::list_of;
use pairs::Choice;
use places::Setup;

// The visit at a position of a list.
fn visit_of(visits: &[u16], lengths: &[u16], r: usize, position: usize) -> usize
    requires { Laid visits.now lengths.now × (r < length lengths.now) × (position < get_or lengths.now r 0) }
    ensures { result ≡ get_or (list_of visits.now lengths.now r) position 0 }
{
    let list = list_of(visits, lengths, r);
    usize::from(list[position])
}

// A position as the cache has it.
fn narrow(position: usize) -> u16
    requires { position < 65536 }
    ensures { result ≡ position }
{
    position as u16
}

// Makes a move, and brings the cache up to date. The visit sits in its new list now, and what it costs to insert it there is not asked; the two lists are the
// only ones that changed.
pub fn make_move(
    setup: Setup,
    columns: &Columns,
    visits: &mut [u16],
    lengths: &mut [u16],
    cache: &mut Insertions,
    choice: Choice,
)
    requires held { (setup.depot < columns.now.locations) × Held columns.now.locations visits.old lengths.old }
    requires relocates { Relocates visits.old lengths.old choice.from choice.position choice.to choice.place }
    requires known { Known (insertion_delta (leg_in (lent columns.now)) setup.depot setup.fixed) columns.now.locations (lists visits.old lengths.old)
        cache.old }
    ensures edited { Edited visits.old lengths.old visits.new lengths.new
        (relocated (lists visits.old lengths.old) choice.from choice.position choice.to choice.place) }
    ensures known_2 { Known (insertion_delta (leg_in (lent columns.now)) setup.depot setup.fixed) columns.now.locations
        (lists visits.new lengths.new) cache.new }
{
    let visit = visit_of(visits, lengths, choice.from, choice.position);
    move_visit(
        visits,
        lengths,
        choice.from,
        choice.position,
        choice.to,
        choice.place,
    );
    cache.forget(visit, choice.from);
    cache.forget(visit, choice.to);
    let matrix = columns.matrix();
    let left = narrow(choice.position);
    let giver = list_of(visits, lengths, choice.from);
    cache.after_removal(&matrix, setup.depot, setup.fixed, giver, choice.from, left);
    let came = narrow(choice.place);
    let receiver = list_of(visits, lengths, choice.to);
    cache.after_insertion(&matrix, setup.depot, setup.fixed, receiver, choice.to, came);
}
