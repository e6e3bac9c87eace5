// The kinds of run that change one list: 2-opt, Or-opt and 3-opt. Each is made on a copy of the day's visits, and agrees if the end word, the moves, the
// distance and every visit of the whole table are the stored ones: the visits of the list asked for as the run has them, all others as the day has them.
use crate::sample_day::{SampleDay, copied};
use day::day::Day;
use day::refusal::Refusal;
use day::vehicle::Van;
use lists::{length_of, start_of};
use planner::improve::{Improved, or_opt_improve, three_opt_improve, two_opt_improve};
use sample::stored::{Run, SETTLED, STOPPED};

// Whether the run ended as stored.
fn ends_as_stored(run: &mut Run, ended: Improved) -> Option<bool> {
    let (word, moves, distance) = match ended {
        Improved::Settled { moves, distance } => (SETTLED, moves, distance),
        Improved::Stopped { moves, distance } => (STOPPED, moves, distance),
    };
    Some(run.is_end(word, moves)? && run.is_number(distance)?)
}

// The visit that a place of the table must hold: from `start` on those of the list handed back, and else the one lent.
fn visit_due(handed: &[u8], start: usize, lent: u16, place: usize) -> u16 {
    place
        .checked_sub(start)
        .and_then(|k| handed.get(k))
        .map_or(lent, |&byte| u16::from(byte))
}

// Whether every place of the table holds the visit that it must.
fn are_due(handed: &[u8], start: usize, visits: &[u16], own: &[u16]) -> bool {
    own.iter().zip(visits).enumerate().all(|(k, (&visit, &lent))| visit
        == visit_due(handed, start, lent, k))
}

// Whether the table is the one that was lent but for the list asked for, and that the one stored.
fn is_handed_back(handed: &[u8], list: usize, sample: &SampleDay, own: &[u16]) -> bool {
    let lengths = sample.lengths;
    if list >= lengths.len() || list > 15 {
        return false;
    }
    handed.len() == length_of(lengths, list)
        && are_due(handed, start_of(lengths, list), sample.visits, own)
}

// Whether the engine's answer to a run is the stored one.
fn agrees<F: Fn(&Day, Van, &mut [u16], &[u16], usize, u32) -> Result<Improved, Refusal>>(
    mut run: Run,
    sample: &SampleDay,
    engine: F,
) -> Option<bool>
    requires { F.IsAlwaysCallable engine }
{
    let list = run.bytes.count()?;
    let limit = run.limit()?;
    let mut copy = copied(sample.visits)?;
    let own = copy.as_mut_slice();
    let ended = engine(&sample.day, sample.van, own, sample.lengths, list, limit).ok()?;
    Some(ends_as_stored(&mut run, ended)? && is_handed_back(run.bytes.rest, list, sample, own))
}

pub fn two_opt(run: Run, sample: &SampleDay) -> Option<bool> {
    agrees(run, sample, two_opt_improve)
}

pub fn or_opt(run: Run, sample: &SampleDay) -> Option<bool> {
    agrees(run, sample, or_opt_improve)
}

pub fn three_opt(run: Run, sample: &SampleDay) -> Option<bool> {
    agrees(run, sample, three_opt_improve)
}
