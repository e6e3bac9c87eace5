// 2-opt, Or-opt and 3-opt on one list of a day: the search of the engine or, where a window is soft, the same neighbourhood over the effective cost.

#![tactic(auto)]

ghost use Rattle.std.specs.Prelude.{◌≡◌, true, ◌<◌};
ghost use Rattle.day.specs.Refusal.{all_plain};
ghost use Rattle.labels.specs.Columns.{Visits};
ghost use Rattle.labels.specs.Lent.{lent};
ghost use Rattle.engine.specs.Engine.{ended_as};
ghost use Rattle.within.specs.Within.{hard_ran, ran_by};

use day::vehicle::RouteLimits;
use day_scans::customer::has_soft_windows;
use engine::Ended;
use labels::columns::Columns;
use neighbours::Neighbourhood;
use neighbours::reconnect::Reconnect;
use neighbours::relocate::Relocate;
use neighbours::reverse::Reverse;
use or_opt::or_opt_improve;
use three_opt::three_opt_improve;
use two_opt::two_opt_improve;

// A neighbourhood that an engine searches where no window is soft.
pub trait Searched: Neighbourhood {
    // The engine's run.
    fn improve_hard(
        columns: &Columns,
        limits: RouteLimits,
        depot: usize,
        list: &mut [u16],
        limit: u32,
    ) -> Ended
        requires depot_lt_l { (depot < columns.now.locations) × Visits columns.now.locations list.old }
        requires distances_value { all_plain columns.now.distances.now ≡ true }
        ensures { let c = lent columns.now in
            let ran = hard_ran Self.which c limits depot limit list.old
            in (list.new ≡ ran.list) × (result ≡ ended_as ran.word ran.moves) };
}

impl Searched for Reverse {
    fn improve_hard(
        columns: &Columns,
        limits: RouteLimits,
        depot: usize,
        list: &mut [u16],
        limit: u32,
    ) -> Ended {
        two_opt_improve(columns, limits, depot, list, limit)
    }
}

impl Searched for Relocate {
    fn improve_hard(
        columns: &Columns,
        limits: RouteLimits,
        depot: usize,
        list: &mut [u16],
        limit: u32,
    ) -> Ended {
        or_opt_improve(columns, limits, depot, list, limit)
    }
}

impl Searched for Reconnect {
    fn improve_hard(
        columns: &Columns,
        limits: RouteLimits,
        depot: usize,
        list: &mut [u16],
        limit: u32,
    ) -> Ended {
        three_opt_improve(columns, limits, depot, list, limit)
    }
}

// The list changed in place by at most `limit` moves of one neighbourhood.
pub fn improve<N: Searched>(
    columns: &Columns,
    limits: RouteLimits,
    depot: usize,
    list: &mut [u16],
    limit: u32,
) -> Ended
    requires depot_lt_l { (depot < columns.now.locations) × Visits columns.now.locations list.old }
    requires distances_value { all_plain columns.now.distances.now ≡ true }
    ensures { let c = lent columns.now in
        let ran = ran_by N.which c limits depot limit list.old
        in (list.new ≡ ran.list) × (result ≡ ended_as ran.word ran.moves) }
{
    if has_soft_windows(columns.flags) {
        return soft::improve::<N>(columns, limits, depot, list, limit);
    }
    N::improve_hard(columns, limits, depot, list, limit)
}
