// distance/matrix.rs over lent tables. The infinite answers outside the size can't occur: callers show that both places are locations.
ghost use Rattle.std.specs.Prelude.{◌≡◌, ◌<◌};
ghost use Rattle.day.specs.Matrix.{Square, Tables, travel};

// A number for each way from a location to a location: a row for each location that a way begins at. The ghost field says that the table is square.
#[derive(Clone, Copy)]
pub struct Matrix<'a> {
    pub size: usize,
    pub entries: &'a [f64],
    ghost square: { Square size entries.now },
}

impl<'a> Matrix<'a> {
    ghost use Rattle.day.specs.Legs.{leg_of};

    // The number of the way from a location to a location.
    pub fn get(&self, from: usize, to: usize) -> f64
        requires { (from < self.now.size) × (to < self.now.size) }
        ensures { result ≡ leg_of self.now from to }
    {
        self.entries[from * self.size + to]
    }
}

// The travel time: from the times where there are any, else the distance.
pub fn travel_time(distances: &Matrix, times: &[f64], from: usize, to: usize) -> f64
    requires { Tables distances.now.size distances.now.entries.now times.now × (from < distances.now.size) × (to < distances.now.size) }
    ensures { result ≡ travel distances.now.size distances.now.entries.now times.now from to }
{
    if times.len() == 0 {
        return distances.get(from, to);
    }
    let table = Matrix {
        size: distances.size,
        entries: times,
    };
    table.get(from, to)
}
