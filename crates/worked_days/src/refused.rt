// One input for each of refusals 1 to 10: the line with one thing wrong, which the words name.
use crate::line::{Line, van_with_break};
use day::day::Day;
use day::refusal::Refusal;
use day::vehicle::Van;
use planner::refusal::refusal_of;
use std::io;

// The number of a refusal, 0 where nothing is refused.
pub fn number_of(answer: Result<(), Refusal>) -> u8 {
    match answer {
        Ok(()) => 0,
        Err(refusal) => refusal.number(),
    }
}

// The refusal of list 2,1,3.
fn refused(rt: &impl Print, said: &str, line: Line) -> io::Result<()> {
    let number = number_of(refusal_of(line.day, line.van, &[2, 1, 3], &[3], 0));
    println!(rt; "refused {number}: {said}")
}

fn by_size(rt: &impl Print, line: Line) -> io::Result<()> {
    let lent = line.day;
    refused(rt, "nothing, the line as it is", line)?;
    for (locations, said) in [(0, "no locations"), (4, "4 locations, 5 flags")] {
        let day = Day { locations, ..*lent };
        refused(rt, said, Line { day: &day, ..line })?;
    }
    Ok(())
}

fn by_numbers(rt: &impl Print, line: Line) -> io::Result<()> {
    let lent = line.day;
    let flags = &[1, 2, 0, 0, 0];
    let plain = Day { flags, ..*lent };
    let far = Day {
        distances: &[-1.0; 25],
        ..plain
    };
    let laden = Day {
        demand: &[-1; 5],
        ..plain
    };
    let late = Day {
        ready: &[1.0; 5],
        ..plain
    };
    let cases = [
        (&far, "distances of -1"),
        (&laden, "demands of -1"),
        (&late, "place 1 ready at 1, due at 0"),
    ];
    for (day, said) in cases {
        refused(rt, said, Line { day, ..line })?;
    }
    Ok(())
}

fn by_van(rt: &impl Print, line: Line) -> io::Result<()> {
    let elsewhere = Van {
        depot: 1,
        ..line.van
    };
    let cases = [
        (elsewhere, "the van's depot is place 1"),
        (van_with_break(20.0, 19.0, 30.0), "break from 20 to 19"),
    ];
    for (van, said) in cases {
        refused(rt, said, Line { van, ..line })?;
    }
    Ok(())
}

fn by_lists(rt: &impl Print, line: Line) -> io::Result<()> {
    let cases = [
        ([2, 1, 3], 2, "3 visits, a list of 2"),
        ([2, 1, 5], 3, "visit 5"),
        ([2, 1, 1], 3, "office 1 twice"),
    ];
    for (visits, length, said) in cases {
        let number = number_of(refusal_of(line.day, line.van, &visits, &[length], 0));
        println!(rt; "refused {number}: {said}")?;
    }
    Ok(())
}

pub fn days(rt: &impl Print, line: Line) -> io::Result<()> {
    by_size(rt, line)?;
    by_numbers(rt, line)?;
    by_van(rt, line)?;
    by_lists(rt, line)
}
