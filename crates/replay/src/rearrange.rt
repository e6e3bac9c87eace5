// The kinds of run that change all lists: relocate, with pruning and without, and tail exchange. Each is made on copies of the day's visits and lengths, and
// agrees if the end word, the moves, the lists that remain and every entry of both tables are the stored ones.
use crate::sample_day::{SampleDay, copied};
use day::day::Day;
use day::refusal::Refusal;
use day::vehicle::Van;
use planner::rearrange::{Rearranged, exchange_improve, relocate_improve};
use sample::stored::{Run, SETTLED, STOPPED};

// Whether the run ended as stored.
pub fn ends_as_stored(run: &mut Run, ended: Rearranged) -> Option<bool> {
    let (word, moves, remaining) = match ended {
        Rearranged::Settled { moves, remaining } => (SETTLED, moves, remaining),
        Rearranged::Stopped { moves, remaining } => (STOPPED, moves, remaining),
    };
    Some(run.is_end(word, moves)? && run.bytes.count()? == remaining)
}

// Whether the engine's answer to a run is the stored one.
fn agrees<F: Fn(&Day, Van, &mut [u16], &mut [u16], u32) -> Result<Rearranged, Refusal>>(
    mut run: Run,
    sample: &SampleDay,
    engine: F,
) -> Option<bool>
    requires { F.IsAlwaysCallable engine }
{
    let limit = run.limit()?;
    let mut own_visits = copied(sample.visits)?;
    let mut own_lengths = copied(sample.lengths)?;
    let visits = own_visits.as_mut_slice();
    let lengths = own_lengths.as_mut_slice();
    let ended = engine(&sample.day, sample.van, visits, lengths, limit).ok()?;
    Some(
        ends_as_stored(&mut run, ended)?
            && run.are_places(lengths)?
            && run.are_places(visits)?
            && run.bytes.is_at_end(),
    )
}

pub fn relocate(run: Run, sample: &SampleDay) -> Option<bool> {
    agrees(run, sample, |day, van, visits, lengths, limit| {
        relocate_improve(day, van, visits, lengths, limit, true)
    })
}

pub fn relocate_without_pruning(run: Run, sample: &SampleDay) -> Option<bool> {
    agrees(run, sample, |day, van, visits, lengths, limit| {
        relocate_improve(day, van, visits, lengths, limit, false)
    })
}

pub fn exchange(run: Run, sample: &SampleDay) -> Option<bool> {
    agrees(run, sample, exchange_improve)
}
