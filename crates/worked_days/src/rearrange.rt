// The runs over all lists: relocate and tail exchange.
use crate::line::{ENOUGH, Line, copied};
use crate::print::{Answer, List, Word};
use day::vehicle::Van;
use planner::rearrange::{Rearranged, exchange_improve, relocate_improve};
use std::{fmt, io};

// How a run over all lists ended.
#[derive(Clone, Copy)]
pub struct Ended(pub Rearranged);

impl fmt::Display for Ended {
    fn fmt<W: fmt::Write>(&self, f: &mut fmt::Formatter<W>) -> fmt::Result {
        let (moves, remaining, word) = match self.0 {
            Rearranged::Settled { moves, remaining } => (moves, remaining, Word::Settled),
            Rearranged::Stopped { moves, remaining } => (moves, remaining, Word::Stopped),
        };
        write!(f, "lists {remaining}, moves {moves}, {word}")
    }
}

// All visits handed back, and the length of each list behind them.
#[derive(Clone, Copy)]
pub struct Tables<'a> {
    pub visits: &'a [u16],
    pub lengths: &'a [u16],
}

impl fmt::Display for Tables<'_> {
    fn fmt<W: fmt::Write>(&self, f: &mut fmt::Formatter<W>) -> fmt::Result {
        write!(f, "{}, lengths{}", List(self.visits), List(self.lengths))
    }
}

fn relocate(
    rt: &impl Print,
    said: &str,
    line: Line,
    visits: &[u16],
    lengths: &[u16],
) -> io::Result<()> {
    let mut visits = copied(visits);
    let mut lengths = copied(lengths);
    let answer = relocate_improve(
        line.day,
        line.van,
        visits.as_mut_slice(),
        lengths.as_mut_slice(),
        ENOUGH,
        true,
    );
    let tables = Tables {
        visits: visits.as_slice(),
        lengths: lengths.as_slice(),
    };
    println!(rt;
        "relocate of {said}:{tables}, {}",
        Answer(answer.map(Ended))
    )
}

// With a van of capacity 2.
fn exchange(rt: &impl Print, line: Line) -> io::Result<()> {
    let van = Van {
        capacity: 2,
        ..line.van
    };
    let visits = &mut [3, 1, 2, 4];
    let lengths = &mut [2, 2];
    let answer = exchange_improve(line.day, van, visits, lengths, ENOUGH);
    let tables = Tables { visits, lengths };
    println!(rt;
        "tail exchange of 3,1 and 2,4, capacity 2:{tables}, {}",
        Answer(answer.map(Ended))
    )
}

pub fn days(rt: &impl Print, line: Line) -> io::Result<()> {
    relocate(rt, "1,3 and 2", line, &[1, 3, 2], &[2, 1])?;
    relocate(rt, "2,1 alone", line, &[2, 1], &[2])?;
    exchange(rt, line)
}
