// A run of a relocate engine (relocate.rs, the loop of `relocate_improve`): the best move of every pair of lists is searched and kept in a table; the least of
// the table is made, and the table follows, until none gains or the limit is used up.

#![tactic(auto)]

ghost use Rattle.std.specs.Prelude.{◌≡◌, length};
ghost use Rattle.lists.specs.Table.{lists};
ghost use Rattle.list_changes.specs.Edits.{Edited};
ghost use Rattle.engine.specs.Engine.{ended_as};
ghost use Rattle.relocations.specs.Relocations.{PairsRight, Every};
ghost use Rattle.relocation_runs.specs.Runs.{run_by};

use engine::Ended;
use pairs::PairTable;
use relocations::{PairSearch, search_all, search_changed};

// Makes move after move until none is left or the limit is used up.
pub fn make_moves<E: PairSearch>(
    engine: &mut E,
    visits: &mut [u16],
    lengths: &mut [u16],
    table: &mut PairTable,
    limit: u32,
) -> Ended
    requires is_ready { E.ready engine.old visits.old lengths.old }
    requires right { PairsRight (E.terms engine.old) (lists visits.old lengths.old) (length lengths.old) Every table.old }
    ensures { let run = run_by (E.terms engine.old) limit (lists visits.old lengths.old)
        in Edited visits.old lengths.old visits.new lengths.new run.last.now
        × (result ≡ ended_as run.word run.moves) }
{
    let mut moves = 0;
    loop {
        let best = table.best(lengths.len(), engine.bound());
        if best.found == 0 {
            return Ended::Settled(moves);
        }
        if limit <= moves {
            return Ended::Stopped(moves);
        }
        engine.make_move(visits, lengths, best);
        search_changed(engine, visits, lengths, table, best.from, best.to);
        moves += 1;
    }
}

// Searches every pair, and makes move after move, at most `limit`.
pub fn descend<E: PairSearch>(
    engine: &mut E,
    visits: &mut [u16],
    lengths: &mut [u16],
    limit: u32,
) -> Ended
    requires { E.ready engine.old visits.old lengths.old }
    ensures { let run = run_by (E.terms engine.old) limit (lists visits.old lengths.old)
        in Edited visits.old lengths.old visits.new lengths.new run.last.now
        × (result ≡ ended_as run.word run.moves) }
{
    let mut table = PairTable::new();
    search_all(engine, visits, lengths, &mut table);
    make_moves(engine, visits, lengths, &mut table, limit)
}
