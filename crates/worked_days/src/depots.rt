// Cross-depot on the day of the Rust's own example: depots 0 and 1 at 0 and 100 on a line, offices 2, 3 and 4 at 5, 90 and 95, a van at each depot, of
// capacity 10 and cost 1 a distance. Then one input for each of refusals 11 and 12.
use crate::line;
use crate::line::{ENOUGH, copied};
use crate::print::{Answer, List};
use crate::rearrange::{Ended, Tables};
use crate::refused::number_of;
use day::day::Day;
use fleet::Fleet;
use planner::depots::cross_depot_improve;
use planner::refusal::refusal_of_fleet;
use std::io;

// Two lists under their vans, what is lent as their prices, and how the words name them.
#[derive(Clone, Copy)]
struct Case<'a> {
    said: &'a str,
    visits: &'a [u16],
    lengths: &'a [u16],
    ids: &'a [u32],
    prices: &'a [f64],
}

impl Case<'_> {
    // The run with this fleet: all visits handed back, the length of each list, the id of its van, and how the run ended.
    fn run(&self, rt: &impl Print, day: &Day, fleet: &Fleet) -> io::Result<()> {
        let mut visits = copied(self.visits);
        let mut lengths = copied(self.lengths);
        let mut ids = copied(self.ids);
        let answer = cross_depot_improve(
            day,
            fleet,
            visits.as_mut_slice(),
            lengths.as_mut_slice(),
            ids.as_mut_slice(),
            self.prices,
            ENOUGH,
        );
        let tables = Tables {
            visits: visits.as_slice(),
            lengths: lengths.as_slice(),
        };
        print!(rt; "cross-depot of {}:{tables}", self.said)?;
        println!(rt;
            ", vans{}, {}",
            List(ids.as_slice()),
            Answer(answer.map(Ended))
        )
    }
}

// The lent price counts, not the list's own: at 0 nothing gains. An id that no van has stands for the first van.
fn with_two_vans(rt: &impl Print, day: &Day, fleet: &Fleet) -> io::Result<()> {
    let cases = [
        Case {
            said: "2,3 and 4, prices 180 and 10",
            visits: &[2, 3, 4],
            lengths: &[2, 1],
            ids: &[0, 1],
            prices: &[180.0, 10.0],
        },
        Case {
            said: "3 and 4, prices 180 and 10",
            visits: &[3, 4],
            lengths: &[1, 1],
            ids: &[0, 1],
            prices: &[180.0, 10.0],
        },
        Case {
            said: "2,3 under van 7 and 4, prices 0 and 0",
            visits: &[2, 3, 4],
            lengths: &[2, 1],
            ids: &[7, 1],
            prices: &[0.0, 0.0],
        },
    ];
    for case in cases {
        case.run(rt, day, fleet)?;
    }
    Ok(())
}

fn with_no_van(rt: &impl Print, day: &Day) -> io::Result<()> {
    let none = Fleet {
        ids: &[],
        depots: &[],
        capacities: &[],
        distance_costs: &[],
        fixed_costs: &[],
        flags: &[],
        max_distances: &[],
        max_durations: &[],
        earliest: &[],
        latest: &[],
        durations: &[],
    };
    let case = Case {
        said: "2,3 under van 7 and 4, no vans",
        visits: &[2, 3, 4],
        lengths: &[2, 1],
        ids: &[7, 1],
        prices: &[180.0, 10.0],
    };
    case.run(rt, day, &none)
}

// The day, with flags for depots 0 and 1.
fn day(distances: &[f64]) -> Day<'_> {
    Day {
        flags: &[1, 1, 0, 0, 0],
        ..line::day(distances)
    }
}

// The distances between depots 0 and 1 and the offices.
fn distances() -> [f64; 25] {
    line::distances([0, 100, 5, 90, 95])
}

// A van of id 0 at depot 0 and one of id 1 at depot 1.
fn two_vans() -> Fleet<'static> {
    Fleet {
        ids: &[0, 1],
        depots: &[0, 1],
        capacities: &[10; 2],
        distance_costs: &[1.0; 2],
        fixed_costs: &[0.0; 2],
        flags: &[0; 2],
        max_distances: &[0.0; 2],
        max_durations: &[0.0; 2],
        earliest: &[0.0; 2],
        latest: &[0.0; 2],
        durations: &[0.0; 2],
    }
}

pub fn days(rt: &impl Print) -> io::Result<()> {
    let distances = distances();
    let day = day(&distances);
    with_two_vans(rt, &day, &two_vans())?;
    with_no_van(rt, &day)
}

// Lists 2,3 and 4 under the two vans.
pub fn refusals(rt: &impl Print) -> io::Result<()> {
    let distances = distances();
    let day = day(&distances);
    let fleet = two_vans();
    let cases: [(&[f64], &str); 2] = [
        (&[180.0], "two lists, one price"),
        (&[-1.0, 10.0], "a price of -1"),
    ];
    for (prices, said) in cases {
        let number = number_of(refusal_of_fleet(
            &day,
            &fleet,
            &[2, 3, 4],
            &[2, 1],
            &[0, 1],
            prices,
        ));
        println!(rt; "refused {number}: {said}")?;
    }
    Ok(())
}
