// A list that needs no clock: no visit has a window, and the van sets no limit but one of distance. Then the distance decides.
ghost use Rattle.std.specs.Prelude.{◌≡◌, ◌<◌, length};
ghost use Rattle.labels.specs.Columns.{Visits};
ghost use Rattle.evaluation.specs.Unclocked.{unclocked, clockless};

use day::flags::flag1;
use day::matrix::Matrix;
use day::vehicle::RouteLimits;

// Whether the van has no break and no limit but one of distance.
#[tactic(auto, unfolding(crate::specs::Unclocked::clockless, day::specs::Vehicle::is_unlimited))]
pub fn is_clockless(limits: RouteLimits) -> bool
    ensures { result ≡ clockless limits }
{
    limits.max_duration.is_none() && limits.rest.is_none()
}

// The distance of a list where no visit has a window; None where one has.
pub fn unclocked_distance(
    distances: &Matrix,
    flags: &[u8],
    depot: usize,
    list: &[u16],
) -> Option<f64>
    requires { (length flags.now ≡ distances.now.size) × (depot < distances.now.size) × Visits distances.now.size list.now }
    ensures { result ≡ unclocked distances.now.size flags.now distances.now.entries.now depot list.now }
{
    let mut distance = 0.0;
    let mut place = depot;
    for visit in list {
        let visit = usize::from(*visit);
        if flag1(flags[visit]) {
            return None;
        }
        distance = distance + distances.get(place, visit);
        place = visit;
    }
    Some(distance + distances.get(place, depot))
}
