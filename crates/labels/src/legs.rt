// What the columns say of a location, and of the way from one to another.
ghost use Rattle.std.specs.Prelude.{◌≡◌, ◌<◌};
ghost use Rattle.labels.specs.Columns.{leg_in, travel_in, stop_at};
ghost use Rattle.labels.specs.Lent.{lent};

use crate::columns::Columns;
use crate::stop::{Stop, stop_of};
use day::matrix::{Matrix, travel_time};

impl<'a> Columns<'a> {
    // The table of distances.
    pub fn matrix(&self) -> Matrix<'a>
        ensures size { result.size ≡ self.now.locations }
        ensures entries { result.entries.now ≡ self.now.distances.now }
    {
        Matrix {
            size: self.locations,
            entries: self.distances,
        }
    }

    // The distance from a location to a location.
    pub fn distance(&self, from: usize, to: usize) -> f64
        requires { (from < self.now.locations) × (to < self.now.locations) }
        ensures { result ≡ leg_in (lent self.now) from to }
    {
        self.matrix().get(from, to)
    }

    // The travel time: from the times where there are any, else the distance.
    pub fn travel_time(&self, from: usize, to: usize) -> f64
        requires { (from < self.now.locations) × (to < self.now.locations) }
        ensures { result ≡ travel_in (lent self.now) from to }
    {
        travel_time(&self.matrix(), self.times, from, to)
    }

    // The stop at a location.
    pub fn stop(&self, k: usize) -> Stop
        requires { k < self.now.locations }
        ensures { result ≡ stop_at (lent self.now) k }
    {
        stop_of(
            self.flags,
            self.service,
            self.ready,
            self.due,
            self.penalty,
            k,
        )
    }
}
