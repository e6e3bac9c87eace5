// The runs that change one list: 2-opt, Or-opt and 3-opt.
use crate::line::{ENOUGH, Line, copied, length_of};
use crate::print::{Answer, List, Named, Number, Word};
use day::day::Day;
use day::refusal::Refusal;
use day::vehicle::Van;
use planner::improve::{Improved, or_opt_improve, three_opt_improve, two_opt_improve};
use std::{fmt, io};

#[derive(Clone, Copy)]
struct Ended(Improved);

impl fmt::Display for Ended {
    fn fmt<W: fmt::Write>(&self, f: &mut fmt::Formatter<W>) -> fmt::Result {
        let (moves, distance, word) = match self.0 {
            Improved::Settled { moves, distance } => (moves, distance, Word::Settled),
            Improved::Stopped { moves, distance } => (moves, distance, Word::Stopped),
        };
        write!(f, "distance {}, moves {moves}, {word}", Number(distance))
    }
}

// The visits of a list, or that it has none.
#[derive(Clone, Copy)]
struct Left<'a>(&'a [u16]);

impl fmt::Display for Left<'_> {
    fn fmt<W: fmt::Write>(&self, f: &mut fmt::Formatter<W>) -> fmt::Result {
        let visits = self.0;
        if visits.is_empty() {
            return f.write_str(" none");
        }
        write!(f, "{}", List(visits))
    }
}

// A run on a list of a line, and what the words say of it beside the list.
#[derive(Clone, Copy)]
struct Case<'a> {
    line: Line<'a>,
    visits: &'a [u16],
    limit: u32,
    said: &'a str,
}

impl Case<'_> {
    // The run, the list handed back, and how the run ended.
    fn run<F: Fn(&Day, Van, &mut [u16], &[u16], usize, u32) -> Result<Improved, Refusal>>(
        &self,
        rt: &impl Print,
        name: &str,
        engine: F,
    ) -> io::Result<()>
        requires { F.IsAlwaysCallable engine }
    {
        let line = self.line;
        let visits = self.visits;
        let mut own = copied(visits);
        let length = length_of(visits);
        let answer = engine(
            line.day,
            line.van,
            own.as_mut_slice(),
            &[length],
            0,
            self.limit,
        );
        println!(rt;
            "{name} of {}{}:{}, {}",
            Named(visits),
            self.said,
            Left(own.as_slice()),
            Answer(answer.map(Ended))
        )
    }
}

// A run without a limit.
fn whole<'a>(line: Line<'a>, visits: &'a [u16], said: &'a str) -> Case<'a> {
    Case {
        line,
        visits,
        limit: ENOUGH,
        said,
    }
}

const SOFT: &str = ", place 2 due 20, penalty 3";

fn two_opt(rt: &impl Print, line: Line, soft: Line) -> io::Result<()> {
    let cases = [
        whole(line, &[2, 1, 3], ""),
        Case {
            limit: 0,
            ..whole(line, &[2, 1, 3], ", limit 0")
        },
        whole(soft, &[3, 1, 2], SOFT),
        whole(line, &[], ""),
    ];
    for case in cases {
        case.run(rt, "2-opt", two_opt_improve)?;
    }
    Ok(())
}

fn or_opt(rt: &impl Print, line: Line, soft: Line) -> io::Result<()> {
    let cases = [
        whole(line, &[3, 1, 2], ""),
        whole(soft, &[3, 1, 2], SOFT),
        whole(line, &[], ""),
    ];
    for case in cases {
        case.run(rt, "Or-opt", or_opt_improve)?;
    }
    Ok(())
}

fn three_opt(rt: &impl Print, line: Line, soft: Line) -> io::Result<()> {
    let cases = [
        whole(line, &[2, 1, 3], ""),
        whole(line, &[1, 3, 2, 4], ""),
        whole(soft, &[2, 4, 1, 3], SOFT),
        whole(line, &[], ""),
    ];
    for case in cases {
        case.run(rt, "3-opt", three_opt_improve)?;
    }
    Ok(())
}

// The line, and with a soft window from 0 to 20 and penalty 3 at place 2.
pub fn days(rt: &impl Print, line: Line) -> io::Result<()> {
    let lent = line.day;
    let day = Day {
        flags: &[1, 0, 6, 0, 0],
        due: &[0.0, 0.0, 20.0, 0.0, 0.0],
        penalty: &[0.0, 0.0, 3.0, 0.0, 0.0],
        ..*lent
    };
    let soft = Line { day: &day, ..line };
    two_opt(rt, line, soft)?;
    or_opt(rt, line, soft)?;
    three_opt(rt, line, soft)
}
