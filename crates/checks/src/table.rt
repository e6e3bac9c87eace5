// What the searches work out before the first move, for callers who want to see it.
ghost use Rattle.std.specs.Prelude.{◌≡◌};
ghost use Rattle.checks.specs.Answer.{table_answer};

use day::day::Day;
use day::matrix::Matrix;
use day::refusal::Refusal;
use day::vehicle::Van;
use day_scans::customer::num_depots;
use day_scans::matrix::{is_symmetric, scale};
use numbers::gain_floor;
use refusals::day_and_van_refusal;

// What the searches work out of a day and a van.
#[derive(Clone, Copy)]
pub struct Table {
    // The largest distance.
    pub scale: f64,
    // The least gain that counts.
    pub floor: f64,
    // Whether each distance equals its mirror.
    pub symmetric: bool,
    // The van's fixed cost in distance.
    pub fixed: f64,
    pub depots: usize,
}

// The facts of the day's distances and of the van. The lists play no part.
pub fn table_of(day: &Day, van: Van) -> Result<Table, Refusal>
    ensures answer { result ≡ table_answer day.now van }
{
    day_and_van_refusal(day, van)?;
    let largest = scale(day.distances);
    let distances = Matrix {
        size: day.locations,
        entries: day.distances,
    };
    Ok(Table {
        scale: largest,
        floor: gain_floor(largest),
        symmetric: is_symmetric(&distances),
        fixed: van.fixed_cost_in_distance(),
        depots: num_depots(day.flags),
    })
}
