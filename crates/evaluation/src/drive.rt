// A list driven with no break to take: one label, from the depot or from where the van is, and back to the depot.
ghost use Rattle.std.specs.Prelude.{◌≡◌, ◌<◌};
ghost use Rattle.labels.specs.Columns.{Visits};
ghost use Rattle.labels.specs.Lent.{lent};
ghost use Rattle.labels.specs.Walk.{walk};
ghost use Rattle.evaluation.specs.Route.{tick, home};
ghost use Rattle.evaluation.specs.Drive.{begun, so_far};

use break_clock::{Scheduled, end_with};
use labels::columns::Columns;
use labels::label::{Label, at_start, serve};

// The van behind the visits that it has served.
#[derive(Clone, Copy)]
pub struct Drive {
    pub distance: f64,
    pub label: Label,
    pub place: usize,
}

impl Drive {
    // The van at the depot at time 0.
    pub fn begin(depot: usize) -> Drive
        ensures { result ≡ begun depot }
    {
        Drive {
            distance: 0.0,
            label: at_start(),
            place: depot,
        }
    }

    // On over the visits of a list, and home. None where a hard window can't be kept. It is compiled into each caller, so that a caller who doesn't ask how
    // late the van is carries no lateness.
    #[inline(always)]
    pub fn home(self, columns: &Columns, depot: usize, list: &[u16]) -> Option<Scheduled>
        requires { (depot < columns.now.locations) × (self.place < columns.now.locations) × Visits columns.now.locations list.now }
        ensures { let c = lent columns.now in result ≡ home c depot (walk c (tick c) (so_far self) list.now) }
    {
        let mut label = self.label;
        let mut distance = self.distance;
        let mut place = self.place;
        for visit in list {
            let visit = usize::from(*visit);
            distance = distance + columns.distance(place, visit);
            let travel = columns.travel_time(place, visit);
            let stop = columns.stop(visit);
            let reached = serve(label, travel, stop);
            let Some(next) = reached else {
                return None;
            };
            label = next;
            place = visit;
        }
        distance = distance + columns.distance(place, depot);
        let back = columns.travel_time(place, depot);
        end_with(label, None, distance, back)
    }
}
