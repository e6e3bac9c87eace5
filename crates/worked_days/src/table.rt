// What the searches work out of the line, with a van that costs 2 a unit of distance and 10 at once.
use crate::line::Line;
use crate::print::{Answer, Number};
use day::vehicle::Van;
use planner::table::{Table, table_of};
use std::{fmt, io};

#[derive(Clone, Copy)]
struct Known(Table);

impl fmt::Display for Known {
    fn fmt<W: fmt::Write>(&self, f: &mut fmt::Formatter<W>) -> fmt::Result {
        let table = self.0;
        let ways = if table.symmetric {
            "the same both ways"
        } else {
            "not the same both ways"
        };
        write!(f, "largest distance {}, {ways}, ", Number(table.scale))?;
        write!(
            f,
            "fixed cost {} in distance, depots {}",
            Number(table.fixed),
            table.depots
        )
    }
}

pub fn table(rt: &impl Print, line: Line) -> io::Result<()> {
    let van = Van {
        cost_per_distance: 2.0,
        fixed_cost: 10.0,
        ..line.van
    };
    rt.println(Answer(table_of(line.day, van).map(Known)))
}
