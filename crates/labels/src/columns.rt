// What a check reads of a day as it is lent: its columns by location but the demand, and its tables.
ghost use Rattle.std.specs.Prelude.{◌≡◌};
ghost use Rattle.labels.specs.Columns.{columns_at, Formed};

use day::day::Day;

// The ghost field says that each column has an entry a location, and that the tables are right.
#[derive(Clone, Copy)]
pub struct Columns<'a> {
    pub locations: usize,
    pub flags: &'a [u8],
    pub service: &'a [f64],
    pub ready: &'a [f64],
    pub due: &'a [f64],
    pub penalty: &'a [f64],
    pub distances: &'a [f64],
    pub times: &'a [f64],
    ghost formed: { Formed (columns_at locations flags service ready due penalty distances times) },
}

impl<'a> Columns<'a> {
    ghost use Rattle.day.specs.Fine.{Shaped};
    ghost use Rattle.labels.specs.Columns.{columns_of};
    ghost use Rattle.labels.specs.Lent.{lent};

    // Those of a day whose tables have the right lengths.
    pub fn of(day: &Day<'a>) -> Columns<'a>
        requires shaped { Shaped day.now }
        ensures { lent result ≡ columns_of day.now }
    {
        Columns {
            locations: day.locations,
            flags: day.flags,
            service: day.service,
            ready: day.ready,
            due: day.due,
            penalty: day.penalty,
            distances: day.distances,
            times: day.times,
        }
    }
}
