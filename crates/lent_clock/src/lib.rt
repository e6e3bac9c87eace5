// `push` over a clock that is lent and advanced, as evaluation/schedule.rs has it (`BreakClock::push(&mut self, ..) -> bool`).
// It calls the `push` that takes the clock by value; evaluation's own walks use that one.

#![tactic(auto)]

ghost use Rattle.std.specs.Prelude.{◌≡◌, ◌<◌};
ghost use Rattle.break_clock.specs.Schedule.{pushed, any_left_of};
ghost use Rattle.labels.specs.Lent.{lent};

use break_clock::BreakClock;
use labels::columns::Columns;

// Drives on to a visit. The clock lent is then the clock at that visit; the answer says whether a label is left. Where none is, no longer list can be served.
pub fn push(clock: &mut BreakClock, columns: &Columns, visit: usize) -> bool
    requires { (clock.old.prev < columns.now.locations) × (visit < columns.now.locations) × (clock.old.index < 64) }
    ensures { let day = lent columns.now in
        (clock.new ≡ pushed day clock.old visit)
        × (result ≡ any_left_of clock.new) }
{
    let next = BreakClock::push(*clock, columns, visit);
    *clock = next;
    BreakClock::any_left(next)
}
