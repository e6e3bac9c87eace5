// Document 01's worked days, run: places 0 to 4 at 0, 10, 20, 30, 40 on a line, depot 0, distance the gap, no times, demand 1, service 0.
// Then one input for each refusal, the line but for what the printed words name. One line a run.

#![tactic(auto)]

mod line; // the day and the van
mod print; // lines and numbers
mod check; // distance, windows, break
mod table; // what the searches work out of a table
mod asked; // the list asked for
mod improve; // 2-opt, Or-opt, 3-opt
mod rearrange; // relocate, tail exchange
mod refused; // refusals 1 to 10
mod depots; // cross-depot, refusals 11 and 12

use line::Line;
use std::io;

// The days, then the refusals.
fn days(rt: &impl Print, line: Line) -> io::Result<()> {
    table::table(rt, line)?;
    check::days(rt, line)?;
    asked::both_lists(rt, line)?;
    improve::days(rt, line)?;
    rearrange::days(rt, line)?;
    depots::days(rt)?;
    refused::days(rt, line)?;
    depots::refusals(rt)
}

fn main(rt: HostRuntime) -> io::Result<()> {
    let distances = line::distances([0, 10, 20, 30, 40]);
    let day = line::day(&distances);
    let van = line::van();
    days(&rt, Line { day: &day, van })
}
