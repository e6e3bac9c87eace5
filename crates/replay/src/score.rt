// How many runs of one kind agree with the stored answers.
use crate::sample_day::SampleDay;
use sample::columns;
use sample::columns::DayColumns;
use sample::kind::Kind;
use sample::layout::{DayBytes, day_bytes, next_day, next_run};
use sample::stored::Run;
use sample_bytes::Reader;

#[derive(Clone, Copy, Default)]
pub struct Score {
    pub agree: u64,
    pub differ: u64,
}

// The runs of both.
fn sum(a: Score, b: Score) -> Score {
    Score {
        agree: a.agree.saturating_add(b.agree),
        differ: a.differ.saturating_add(b.differ),
    }
}

// The score of one run.
fn of_run(agreed: bool) -> Score {
    Score {
        agree: u64::from(agreed),
        differ: u64::from(!agreed),
    }
}

// The score of a day's runs.
fn of_runs<F: Fn(Run, &SampleDay) -> Option<bool>>(
    day: &DayBytes,
    kind: Kind,
    agrees: &F,
    sample: &SampleDay,
) -> Score
    requires { F.IsAlwaysCallable agrees.now }
{
    let words = day.words;
    let mut runs = day.runs;
    let mut score = Score::default();
    for (tag, run) in (0..day.run_count).map_while(|_| next_run(&mut runs)) {
        if tag == kind.tag() {
            let bytes = Reader { rest: run };
            score = sum(
                score,
                of_run(agrees(Run { words, bytes }, sample) == Some(true)),
            );
        }
    }
    score
}

// The score of a day, none where it hasn't the stored form.
fn of_day<F: Fn(Run, &SampleDay) -> Option<bool>>(
    bytes: &[u8],
    kind: Kind,
    agrees: &F,
) -> Option<Score>
    requires { F.IsAlwaysCallable agrees.now }
{
    let day = day_bytes(bytes)?;
    let words = day.words;
    let mut columns = DayColumns::unread(&day.locations);
    columns.read(words, &day.locations)?;
    let visits = columns::places(day.visits)?;
    let lengths = columns::places(day.lengths)?;
    let sample = SampleDay {
        day: columns.day(),
        van: columns::van(words, day.van)?,
        visits: visits.as_slice(),
        lengths: lengths.as_slice(),
    };
    Some(of_runs(&day, kind, agrees, &sample))
}

// The score of a file's runs of a kind.
pub fn of_file<F: Fn(Run, &SampleDay) -> Option<bool>>(
    data: &[u8],
    kind: Kind,
    agrees: &F,
) -> Option<Score>
    requires { F.IsAlwaysCallable agrees.now }
{
    let mut file = Reader { rest: data };
    let days = file.pair()?;
    let mut score = Score::default();
    for day in (0..days).map_while(|_| next_day(&mut file)) {
        score = sum(score, of_day(day, kind, agrees)?);
    }
    Some(score)
}
