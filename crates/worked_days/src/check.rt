// The runs that look at one list and change nothing.
use crate::line::{Line, length_of, van_with_break};
use crate::print::{Answer, Named, Number};
use day::day::Day;
use day::vehicle::Van;
use labels::label::Taken;
use planner::check::{RouteEval, Scheduled, route_distance, route_eval, route_feasible, schedule};
use std::{fmt, io};

#[derive(Clone, Copy)]
struct Passes(bool);

impl fmt::Display for Passes {
    fn fmt<W: fmt::Write>(&self, f: &mut fmt::Formatter<W>) -> fmt::Result {
        f.write_str(if self.0 { "passes" } else { "fails" })
    }
}

#[derive(Clone, Copy)]
struct Evaluated(Option<RouteEval>);

impl fmt::Display for Evaluated {
    fn fmt<W: fmt::Write>(&self, f: &mut fmt::Formatter<W>) -> fmt::Result {
        let Some(eval) = self.0 else {
            return f.write_str("fails");
        };
        write!(
            f,
            "distance {}, duration {}, ",
            Number(eval.distance),
            Number(eval.duration)
        )?;
        write!(
            f,
            "lateness {}, cost {}",
            Number(eval.lateness),
            Number(eval.lateness_cost)
        )
    }
}

#[derive(Clone, Copy)]
struct Rest(Option<Taken>);

impl fmt::Display for Rest {
    fn fmt<W: fmt::Write>(&self, f: &mut fmt::Formatter<W>) -> fmt::Result {
        match self.0 {
            None => f.write_str("left out"),
            Some(taken) => write!(
                f,
                "taken at {} before visit {}",
                Number(taken.start),
                taken.position
            ),
        }
    }
}

#[derive(Clone, Copy)]
struct Back(Option<Scheduled>);

impl fmt::Display for Back {
    fn fmt<W: fmt::Write>(&self, f: &mut fmt::Formatter<W>) -> fmt::Result {
        match self.0 {
            None => f.write_str("impossible"),
            Some(s) => write!(f, "{}, back at {}", Rest(s.rest), Number(s.duration)),
        }
    }
}

impl Line<'_> {
    fn distance(&self, visits: &[u16]) -> Answer<Number> {
        let length = length_of(visits);
        Answer(route_distance(self.day, self.van, visits, &[length], 0).map(Number))
    }

    fn passes(&self, visits: &[u16]) -> Answer<Passes> {
        let length = length_of(visits);
        Answer(route_feasible(self.day, self.van, visits, &[length], 0).map(Passes))
    }

    fn evaluated(&self, visits: &[u16]) -> Answer<Evaluated> {
        let length = length_of(visits);
        Answer(route_eval(self.day, self.van, visits, &[length], 0).map(Evaluated))
    }

    fn scheduled(&self, visits: &[u16]) -> Answer<Back> {
        let length = length_of(visits);
        Answer(schedule(self.day, self.van, visits, &[length], 0).map(Back))
    }
}

fn distances(rt: &impl Print, line: Line) -> io::Result<()> {
    let lists: [&[u16]; 5] = [&[2, 1, 3], &[1, 2, 3], &[1, 3, 2, 4], &[1, 2, 3, 4], &[]];
    for visits in lists {
        println!(rt; "distance of {}: {}", Named(visits), line.distance(visits))?;
    }
    Ok(())
}

// List 2, with a window from 0 to `closes` at place 2.
fn windows(rt: &impl Print, line: Line) -> io::Result<()> {
    let lent = line.day;
    for closes in [20.0, 19.0] {
        let day = Day {
            flags: &[1, 0, 2, 0, 0],
            due: &[0.0, 0.0, closes, 0.0, 0.0],
            ..*lent
        };
        let line = Line { day: &day, ..line };
        println!(rt; "list 2, due {}: {}", Number(closes), line.passes(&[2]))?;
    }
    Ok(())
}

// List 2, with a soft window from 0 to 19 at place 2 and penalty 3.
fn soft_window(rt: &impl Print, line: Line) -> io::Result<()> {
    let lent = line.day;
    let day = Day {
        flags: &[1, 0, 6, 0, 0],
        due: &[0.0, 0.0, 19.0, 0.0, 0.0],
        penalty: &[0.0, 0.0, 3.0, 0.0, 0.0],
        ..*lent
    };
    let line = Line { day: &day, ..line };
    println!(rt; "list 2, due 19, penalty 3: {}", line.evaluated(&[2]))
}

// A van with a break of 30 that begins from `earliest` to 90.
fn with_break(earliest: f64) -> Van {
    van_with_break(earliest, 90.0, 30.0)
}

// List 1 with a break, and the empty list of a depot whose distance to itself is 5.
fn breaks(rt: &impl Print, line: Line) -> io::Result<()> {
    for earliest in [20.0, 19.0] {
        let line = Line {
            van: with_break(earliest),
            ..line
        };
        println!(rt;
            "list 1, break {} to 90 for 30: {}",
            Number(earliest),
            line.scheduled(&[1])
        )?;
    }
    let day = Day {
        locations: 1,
        flags: &[1],
        demand: &[0],
        service: &[0.0],
        ready: &[0.0],
        due: &[0.0],
        penalty: &[0.0],
        distances: &[5.0],
        times: &[],
    };
    for earliest in [5.0, 4.0] {
        let line = Line {
            day: &day,
            van: with_break(earliest),
        };
        println!(rt;
            "empty list, 5 from depot to depot, break {} to 90 for 30: {}",
            Number(earliest),
            line.scheduled(&[])
        )?;
    }
    Ok(())
}

// Arrival at 2^-53, ready at 1 + 2^-52, and no way back: arrival plus waiting rounds to 1.
fn roundings(rt: &impl Print, line: Line) -> io::Result<()> {
    let day = Day {
        locations: 2,
        flags: &[1, 2],
        demand: &[0, 1],
        service: &[0.0; 2],
        ready: &[0.0, 1.0000000000000002],
        due: &[0.0, 90.0],
        penalty: &[0.0; 2],
        distances: &[0.0, 0.00000000000000011102230246251565, 0.0, 0.0],
        times: &[],
    };
    let line = Line { day: &day, ..line };
    println!(rt;
        "arrival 2^-53, ready 1 + 2^-52, no break to take: {}",
        line.scheduled(&[1])
    )
}

pub fn days(rt: &impl Print, line: Line) -> io::Result<()> {
    distances(rt, line)?;
    windows(rt, line)?;
    soft_window(rt, line)?;
    breaks(rt, line)?;
    roundings(rt, line)
}
