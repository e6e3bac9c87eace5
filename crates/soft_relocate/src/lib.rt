// Inter-route relocation where a day has a soft window (Or 1976), ports local_search/relocate.rs where `has_soft_windows`: one visit goes to any place of
// another list, the least delta first, until none gains. Every move is priced whole, on both lists (crate `soft_offers`).
//
// The best move of each ordered pair of lists is kept in a table (crates `relocations` and `relocation_runs`, of both relocate engines), of which the least
// entry is the next move: the one that a scan in the order (from list, position, to list, place) takes.

#![tactic(auto)]

ghost use Rattle.std.specs.Prelude.{◌≡◌, true, ◌<◌};
ghost use Rattle.numbers.specs.Floor.{gain_floor};
ghost use Rattle.day.specs.Matrix.{scale_of};
ghost use Rattle.day.specs.Refusal.{capacity_ok};
ghost use Rattle.lists.specs.Table.{lists};
ghost use Rattle.list_changes.specs.Edits.{Edited};
ghost use Rattle.engine.specs.Engine.{ended_as};
ghost use Rattle.loads.specs.Loads.{Loaded, Held};
ghost use Rattle.soft_relocate.specs.SoftRelocate.{soft_relocate_run};
ghost use Rattle.soft_offers.specs.Offers.{terms_of};
ghost use Rattle.soft_relocate.specs.PriceSearch.{Ready, sound};
ghost use Rattle.labels.specs.Lent.{lent};

use day::vehicle::RouteLimits;
use day_scans::matrix::scale;
use engine::Ended;
use labels::columns::Columns;
use list_changes::move_visit;
use numbers::gain_floor;
use pairs::Choice;
use relocation_runs::descend;
use relocations::PairSearch;
use soft_offers::best_across;
use soft_places::Setup;

// The engine that prices both lists of a move whole.
#[derive(Drop)]
pub struct PriceSearch<'a> {
    setup: Setup,
    columns: &'a Columns<'a>,
    demand: &'a [i32],
    buffer: [u16; 64],
}

impl<'a> PairSearch for PriceSearch<'a> {
    ghost terms = { λ s. terms_of (lent s.columns.now) s.demand.now s.setup };

    ghost ready = { λ s. Ready (lent s.columns.now) s.demand.now s.setup };

    fn bound(&self) -> f64 {
        -self.setup.floor
    }

    fn best_across(&mut self, visits: &[u16], lengths: &[u16], from: usize, to: usize) -> Choice {
        best_across(
            self.setup,
            self.columns,
            self.demand,
            visits,
            lengths,
            &mut self.buffer,
            from,
            to,
        )
    }

    fn make_move(&mut self, visits: &mut [u16], lengths: &mut [u16], choice: Choice) {
        move_visit(
            visits,
            lengths,
            choice.from,
            choice.position,
            choice.to,
            choice.place,
        );
    }

    ghost laid = { λ s visits lengths ready. ready.held.laid };

    ghost sound = { λ s visits lengths ready. sound (lent s.columns.now) s.demand.now s.setup };
}

// Relocate of all lists, priced whole, changed in place under their numbers, with at most `limit` moves. `fixed` is the van's fixed cost as a distance.
pub fn improve(
    columns: &Columns,
    demand: &[i32],
    limits: RouteLimits,
    capacity: i32,
    fixed: f64,
    depot: usize,
    visits: &mut [u16],
    lengths: &mut [u16],
    limit: u32,
) -> Ended
    requires loaded { Loaded columns.now.locations demand.now × (capacity_ok capacity ≡ true) }
    requires depot_lt_l { (depot < columns.now.locations) × Held columns.now.locations visits.old lengths.old }
    ensures { let c = lent columns.now in
        let run = soft_relocate_run c demand.now limits capacity fixed depot (gain_floor (scale_of columns.now.distances.now)) limit
        (lists visits.old lengths.old)
        in Edited visits.old lengths.old visits.new lengths.new run.last.now
        × (result ≡ ended_as run.word run.moves) }
{
    let floor = gain_floor(scale(columns.distances));
    let setup = Setup {
        depot,
        limits,
        capacity: capacity as usize,
        fixed,
        floor,
    };
    let mut engine = PriceSearch {
        setup,
        columns,
        demand,
        buffer: [0; 64],
    };
    descend(&mut engine, visits, lengths, limit)
}
