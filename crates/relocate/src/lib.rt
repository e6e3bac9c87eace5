// Inter-route relocation (Or 1976), ports local_search/relocate.rs without soft windows: one visit goes to any place of another list, the least delta
// first, until none gains. Of equal deltas the first in the order (from list, position, to list, place) is taken; the receiver has to have room and to
// pass, the giver isn't tested.
//
// As in the Rust the best move of every pair of lists is kept in a table (crates `relocations` and `relocation_runs`, of both relocate engines), and so is
// what it costs at least to insert a visit into a list (crate `insertions`), by which most visits need not be offered (crate `offers`). The move taken is the
// one that a scan of all candidates takes, which is the definition.

#![tactic(auto)]

ghost use Rattle.std.specs.Prelude.{◌≡◌, true, false, [], ◌∷◌, ◌<◌};
ghost use Rattle.day.specs.Refusal.{capacity_ok};
ghost use Rattle.lists.specs.Table.{lists};
ghost use Rattle.list_changes.specs.Edits.{Edited};
ghost use Rattle.descent.specs.Permitted.{relocate};
ghost use Rattle.descent.specs.Engines.{run_of};
ghost use Rattle.deltas.specs.Judged.{float_judge};
ghost use Rattle.engine.specs.Engine.{checks_of, map_of, ended_as};
ghost use Rattle.loads.specs.Loads.{boxes, Loaded, Held};
ghost use Rattle.offers.specs.Offers.{terms_of};
ghost use Rattle.relocate.specs.DeltaSearch.{Ready, sound};
ghost use Rattle.labels.specs.Lent.{lent};

use day::vehicle::RouteLimits;
use day_scans::matrix::scale;
use engine::Ended;
use evaluation::route::route_checks_needed;
use insertions::Insertions;
use labels::columns::Columns;
use numbers::gain_floor;
use offers::best_across;
use pairs::Choice;
use places::Setup;
use relocation_changes::make_move;
use relocation_runs::descend;
use relocations::PairSearch;

// The engine that reads what a move changes off the legs where it takes effect.
#[derive(Drop)]
pub struct DeltaSearch<'a> {
    setup: Setup,
    columns: &'a Columns<'a>,
    demand: &'a [i32],
    cache: &'a mut Insertions,
    buffer: [u16; 64],
}

impl<'a> PairSearch for DeltaSearch<'a> {
    ghost terms = { λ s. terms_of (lent s.columns.now) s.demand.now s.setup };

    ghost ready = { λ s. Ready (lent s.columns.now) s.demand.now s.setup s.cache.now };

    fn bound(&self) -> f64 {
        -self.setup.floor
    }

    fn best_across(&mut self, visits: &[u16], lengths: &[u16], from: usize, to: usize) -> Choice {
        best_across(
            self.setup,
            self.columns,
            self.demand,
            visits,
            lengths,
            &mut self.buffer,
            self.cache,
            from,
            to,
        )
    }

    fn make_move(&mut self, visits: &mut [u16], lengths: &mut [u16], choice: Choice) {
        make_move(
            self.setup,
            self.columns,
            visits,
            lengths,
            self.cache,
            choice,
        );
    }

    ghost laid = { λ s visits lengths ready. ready.held.laid };

    ghost sound = { λ s visits lengths ready. sound (lent s.columns.now) s.demand.now s.setup ready.prepared };
}

// Relocate of all lists, changed in place under their numbers, with at most `limit` moves. `fixed` is the van's fixed cost as a distance. Without `pruning`
// every visit is offered at every place, and the moves are the same.
pub fn relocate_improve(
    columns: &Columns,
    demand: &[i32],
    limits: RouteLimits,
    capacity: i32,
    fixed: f64,
    depot: usize,
    visits: &mut [u16],
    lengths: &mut [u16],
    limit: u32,
    pruning: bool,
) -> Ended
    requires loaded { Loaded columns.now.locations demand.now × (capacity_ok capacity ≡ true) }
    requires depot_lt_l { (depot < columns.now.locations) × Held columns.now.locations visits.old lengths.old }
    ensures { let c = lent columns.now in
        let run = run_of (relocate false) (checks_of (boxes demand.now capacity ∷ []) c limits depot)
        (float_judge (relocate false) (map_of columns.now.locations columns.now.distances.now depot fixed)) limit (lists visits.old lengths.old)
        in Edited visits.old lengths.old visits.new lengths.new run.last.now
        × (result ≡ ended_as run.word run.moves) }
{
    let floor = gain_floor(scale(columns.distances));
    let needed = route_checks_needed(columns.flags, limits);
    let setup = Setup {
        depot,
        limits,
        capacity: capacity as usize,
        fixed,
        floor,
        needed,
        pruning,
    };
    let mut cache = Insertions::zeros();
    cache.forget_all();
    let mut engine = DeltaSearch {
        setup,
        columns,
        demand,
        cache: &mut cache,
        buffer: [0; 64],
    };
    descend(&mut engine, visits, lengths, limit)
}
