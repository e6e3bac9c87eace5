// The list asked for, as the caller's own part of the visits: each list of the two 2,1,3 and 4.
use crate::line::Line;
use crate::print::{Answer, List};
use planner::list::list_of;
use std::io;

pub fn both_lists(rt: &impl Print, line: Line) -> io::Result<()> {
    for list in 0..2 {
        let part = list_of(line.day, line.van, &[2, 1, 3, 4], &[3, 1], list);
        println!(rt; "list {list}:{}", List(part))?;
    }
    Ok(())
}
