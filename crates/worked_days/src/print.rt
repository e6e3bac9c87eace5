// How numbers, lists and answers read.
use day::refusal::Refusal;
use std::fmt;

// The whole part of a number from 0 to 2^64, and 0 of any other.
fn whole_part_or_zero(x: f64) -> u64 {
    if x > -1.0 {
        if x < 18446744073709551616.0 {
            return std::num::truncating_f64_to_u64(x);
        }
    }
    0
}

// A whole number in decimal; of another it says that it isn't whole.
#[derive(Clone, Copy)]
pub struct Number(pub f64);

impl fmt::Display for Number {
    fn fmt<W: fmt::Write>(&self, f: &mut fmt::Formatter<W>) -> fmt::Result {
        let n = whole_part_or_zero(self.0);
        if std::num::nearest_u64_to_f64(n) == self.0 {
            return write!(f, "{n}");
        }
        f.write_str("not whole")
    }
}

// Visits, lengths or ids, each behind a blank.
#[derive(Clone, Copy)]
pub struct List<'a, T>(pub &'a [T]);

impl<T: Copy + Into<u64>> fmt::Display for List<'_, T> {
    fn fmt<W: fmt::Write>(&self, f: &mut fmt::Formatter<W>) -> fmt::Result {
        let entries = self.0;
        for &entry in entries {
            let entry: u64 = entry.into();
            write!(f, " {entry}")?;
        }
        Ok(())
    }
}

// A list as the words before an answer name it.
#[derive(Clone, Copy)]
pub struct Named<'a>(pub &'a [u16]);

impl fmt::Display for Named<'_> {
    fn fmt<W: fmt::Write>(&self, f: &mut fmt::Formatter<W>) -> fmt::Result {
        let visits = self.0;
        let Some((first, rest)) = visits.split_first() else {
            return f.write_str("the empty list");
        };
        write!(f, "{first}")?;
        for visit in rest {
            write!(f, ",{visit}")?;
        }
        Ok(())
    }
}

// An answer, or that it was refused.
#[derive(Clone, Copy)]
pub struct Answer<T>(pub Result<T, Refusal>);

impl<T: fmt::Display> fmt::Display for Answer<T> {
    fn fmt<W: fmt::Write>(&self, f: &mut fmt::Formatter<W>) -> fmt::Result {
        match &self.0 {
            Ok(answer) => write!(f, "{answer}"),
            Err(_) => f.write_str("refused"),
        }
    }
}

// How a run ended.
#[derive(Clone, Copy)]
pub enum Word {
    Settled,
    Stopped,
}

impl fmt::Display for Word {
    fn fmt<W: fmt::Write>(&self, f: &mut fmt::Formatter<W>) -> fmt::Result {
        f.write_str(match self {
            Word::Settled => "settled",
            Word::Stopped => "stopped",
        })
    }
}
