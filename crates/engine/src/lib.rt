// What every engine shares: a run of moves and how it ends, whether a candidate passes, and the best so far (best).
//
// A run is one loop for all engines: `run` proves it once, for any engine whose next move is its definition's.

#![tactic(auto)]

pub mod best;

ghost use Rattle.std.specs.Prelude.{◌≡◌, ◌<◌};
ghost use Rattle.std.proofs.Math.Option as maybe;
ghost use Rattle.descent.specs.Search.{run};
ghost use Rattle.labels.specs.Columns.{Visits};
ghost use Rattle.labels.specs.Lent.{lent};
ghost use Rattle.engine.specs.Engine.{passing, ended_as, Leads};

use day::vehicle::RouteLimits;
use evaluation::route::route_feasible;
use labels::columns::Columns;

// How a run ended, with the moves made.
#[derive(Clone, Copy)]
pub enum Ended {
    // No permitted move gains any more.
    Settled(u32),
    // The limit was used up, and another move would gain.
    Stopped(u32),
}

// Whether a list passes. Where no check is needed it does, and is not walked.
pub fn passes(
    needed: bool,
    columns: &Columns,
    limits: RouteLimits,
    depot: usize,
    list: &[u16],
) -> bool
    requires { (depot < columns.now.locations) × Visits columns.now.locations list.now }
    ensures { result ≡ passing needed (lent columns.now) limits depot list.now }
{
    if !needed {
        return true;
    }
    route_feasible(columns, limits, depot, list)
}

// An engine under way, with the lists that it was lent.
pub trait Engine {
    // A move that was found.
    type Move;

    // What stays the same over a run: its constants, and which lists it was lent.
    ghost Frame: { Type 0 };

    ghost frame: { Self → Frame };

    // Where a run stands, as its definition has it, and the definition's next move from there.
    ghost State: { Type 0 };

    ghost state: { Self → State };

    ghost next: { Frame → State → maybe.Option State };

    // A search can begin.
    ghost Ready: { Self → Type 0 };

    // A move that was found can be made.
    ghost Apt: { Self → Self.Move → Type 0 };

    // Where the run stood before it was found, and where it leads.
    ghost before: { Self → Self.Move → State };

    ghost after: { Self → Self.Move → State };

    // Finds the next move. A search may try it in the lists and leave it there.
    fn next_move(&mut self) -> Option<Self::Move>
        requires { Ready self.old }
        ensures same { frame self.new ≡ frame self.old }
        ensures leads { Leads (next (frame self.old) (state self.old)) (state self.old)
            (state self.new) (Apt self.new) (before self.new) (after self.new) result };

    // Makes the move that was found.
    fn make(&mut self, found: Self::Move)
        requires { Apt self.old found }
        ensures same { frame self.new ≡ frame self.old }
        ensures made { state self.new ≡ after self.old found }
        ensures ready { Ready self.new };

    // Leaves the lists as they were before the move was found.
    fn forgo(&mut self, found: Self::Move)
        requires { Apt self.old found }
        ensures same { frame self.new ≡ frame self.old }
        ensures forgone { state self.new ≡ before self.old found };
}

// Makes move after move, until none is left or the limit is used up.
#[inline]
pub fn run<E: Engine>(engine: &mut E, limit: u32) -> Ended
    requires { E.Ready engine.old }
    ensures same { E.frame engine.new ≡ E.frame engine.old }
    ensures ended { let run = run (E.next (E.frame engine.old)) limit (E.state engine.old)
        in (E.state engine.new ≡ run.last) × (result ≡ ended_as run.word run.moves) }
{
    let mut moves = 0;
    loop {
        let found = engine.next_move();
        let Some(next) = found else {
            return Ended::Settled(moves);
        };
        if limit <= moves {
            engine.forgo(next);
            return Ended::Stopped(moves);
        }
        engine.make(next);
        moves += 1;
    }
}
