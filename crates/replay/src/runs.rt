// The kinds of run that change nothing: each asks the planner's entry for the stored list, and says whether the answer is the stored one to the last bit.
// A refused run differs, and so does one that hasn't the form of its kind. A new kind is a variant of Kind, a function and a line of `replay`.
use crate::sample_day::SampleDay;
use labels::label::Taken;
use planner::check;
use sample::stored::Run;

// Whether the next four numbers are these.
fn are_stored(
    run: &mut Run,
    distance: f64,
    duration: f64,
    lateness: f64,
    cost: f64,
) -> Option<bool> {
    Some(
        run.is_number(distance)?
            && run.is_number(duration)?
            && run.is_number(lateness)?
            && run.is_number(cost)?,
    )
}

// Whether the next bytes tell this break.
fn is_rest(run: &mut Run, rest: Option<Taken>) -> Option<bool> {
    let is_taken = run.bytes.byte()?;
    match rest {
        None => Some(is_taken == 0),
        Some(taken) => Some(
            is_taken == 1 && run.bytes.count()? == taken.position && run.is_number(taken.start)?,
        ),
    }
}

pub fn feasible(mut run: Run, sample: &SampleDay) -> Option<bool> {
    let list = run.bytes.count()?;
    let passes = check::route_feasible(
        &sample.day,
        sample.van,
        sample.visits,
        sample.lengths,
        list,
    ).ok()?;
    Some(run.bytes.byte()? == u8::from(passes) && run.bytes.is_at_end())
}

pub fn eval(mut run: Run, sample: &SampleDay) -> Option<bool> {
    let list = run.bytes.count()?;
    let passes = run.bytes.byte()?;
    match check::route_eval(&sample.day, sample.van, sample.visits, sample.lengths, list).ok()? {
        None => Some(passes == 0 && run.bytes.is_at_end()),
        Some(e) => Some(
            passes == 1
                && are_stored(
                    &mut run,
                    e.distance,
                    e.duration,
                    e.lateness,
                    e.lateness_cost,
                )?
                && run.bytes.is_at_end(),
        ),
    }
}

pub fn schedule(mut run: Run, sample: &SampleDay) -> Option<bool> {
    let list = run.bytes.count()?;
    let passes = run.bytes.byte()?;
    match check::schedule(&sample.day, sample.van, sample.visits, sample.lengths, list).ok()? {
        None => Some(passes == 0 && run.bytes.is_at_end()),
        Some(s) => Some(
            passes == 1
                && are_stored(
                    &mut run,
                    s.distance,
                    s.duration,
                    s.lateness,
                    s.lateness_cost,
                )?
                && is_rest(&mut run, s.rest)?
                && run.bytes.is_at_end(),
        ),
    }
}

pub fn distance(mut run: Run, sample: &SampleDay) -> Option<bool> {
    let list = run.bytes.count()?;
    let distance = check::route_distance(
        &sample.day,
        sample.van,
        sample.visits,
        sample.lengths,
        list,
    ).ok()?;
    Some(run.is_number(distance)? && run.bytes.is_at_end())
}
