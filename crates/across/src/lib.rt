// Tail exchange and relocate over the lists of a day: the search of the engine or, where a window is soft, the same moves by whole effective costs.

#![tactic(auto)]

ghost use Rattle.std.specs.Prelude.{◌≡◌, true, ◌<◌, pos};
ghost use Rattle.std.specs.Int.Signed.{le_z};
ghost use Rattle.day.specs.Refusal.{capacity_ok};
ghost use Rattle.lists.specs.Table.{lists};
ghost use Rattle.list_changes.specs.Edits.{Edited};
ghost use Rattle.engine.specs.Engine.{ended_as};
ghost use Rattle.loads.specs.Loads.{Loaded, Held};
ghost use Rattle.across.specs.Across.{setting_at, exchange_ran, relocate_ran};
ghost use Rattle.labels.specs.Lent.{lent};

use day::vehicle::RouteLimits;
use day_scans::customer::has_soft_windows;
use engine::Ended;
use exchange::exchange_improve;
use labels::columns::Columns;
use relocate::relocate_improve;

// The lists changed in place, under their numbers, by at most `limit` exchanges. No exchange reads the fixed cost.
pub fn exchange_tails(
    columns: &Columns,
    demand: &[i32],
    limits: RouteLimits,
    capacity: i32,
    fixed: f64,
    depot: usize,
    visits: &mut [u16],
    lengths: &mut [u16],
    limit: u32,
) -> Ended
    requires loaded { Loaded columns.now.locations demand.now }
    requires capacity_value { (le_z (pos 0) capacity ≡ true) × (depot < columns.now.locations) × Held columns.now.locations visits.old lengths.old }
    ensures { let c = lent columns.now in
        let ran = exchange_ran (setting_at c demand.now limits capacity fixed depot) limit (lists visits.old lengths.old)
        in Edited visits.old lengths.old visits.new lengths.new ran.lists
        × (result ≡ ended_as ran.word ran.moves) }
{
    if has_soft_windows(columns.flags) {
        return soft_exchange::improve(
            columns, demand, limits, capacity, depot, visits, lengths, limit,
        );
    }
    exchange_improve(
        columns, demand, limits, capacity, depot, visits, lengths, limit,
    )
}

// The lists changed in place, under their numbers, by at most `limit` relocations. With `pruning` a visit is passed over where its known least insertion gains
// nothing; the outcome is the same.
pub fn relocate_visits(
    columns: &Columns,
    demand: &[i32],
    limits: RouteLimits,
    capacity: i32,
    fixed: f64,
    depot: usize,
    visits: &mut [u16],
    lengths: &mut [u16],
    limit: u32,
    pruning: bool,
) -> Ended
    requires loaded { Loaded columns.now.locations demand.now }
    requires capacity_value { (capacity_ok capacity ≡ true) × (depot < columns.now.locations) × Held columns.now.locations visits.old lengths.old }
    ensures { let c = lent columns.now in
        let ran = relocate_ran (setting_at c demand.now limits capacity fixed depot) limit (lists visits.old lengths.old)
        in Edited visits.old lengths.old visits.new lengths.new ran.lists
        × (result ≡ ended_as ran.word ran.moves) }
{
    if has_soft_windows(columns.flags) {
        return soft_relocate::improve(
            columns, demand, limits, capacity, fixed, depot, visits, lengths, limit,
        );
    }
    relocate_improve(
        columns, demand, limits, capacity, fixed, depot, visits, lengths, limit, pruning,
    )
}
