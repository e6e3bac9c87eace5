// Cross-depot's runs. The fleet, and the van id and price of each list, stand in the run itself. It is made on copies of visits, lengths and van ids, and
// agrees if the end word, the moves, the lists that remain and every entry of the three tables are the stored ones.
use crate::rearrange::ends_as_stored;
use crate::sample_day::{SampleDay, copied};
use arrayvec::ArrayVec;
use fleet::Fleet;
use planner::depots::cross_depot_improve;
use sample::columns;
use sample::stored::Run;
use sample_bytes::{Reader, Words};

// The columns of a run's fleet.
#[derive(Drop)]
struct FleetColumns<'a> {
    ids: ArrayVec<u32, 64>,
    depots: ArrayVec<usize, 64>,
    capacities: ArrayVec<i32, 64>,
    distance_costs: ArrayVec<f64, 64>,
    fixed_costs: ArrayVec<f64, 64>,
    flags: &'a [u8],
    max_distances: ArrayVec<f64, 64>,
    max_durations: ArrayVec<f64, 64>,
    earliest: ArrayVec<f64, 64>,
    latest: ArrayVec<f64, 64>,
    durations: ArrayVec<f64, 64>,
}

impl<'a> FleetColumns<'a> {
    // The columns that stand in a run behind the number of vans.
    fn read(words: Words, run: &mut Reader<'a>) -> Option<FleetColumns<'a>> {
        let vans = run.count()?;
        Some(FleetColumns {
            ids: columns::ids(words, run.take(vans)?)?,
            depots: columns::depots(words, run.take(vans)?)?,
            capacities: columns::demands(words, run.take(vans)?)?,
            distance_costs: columns::numbers(words, run.take(vans)?)?,
            fixed_costs: columns::numbers(words, run.take(vans)?)?,
            flags: run.take(vans)?,
            max_distances: columns::numbers(words, run.take(vans)?)?,
            max_durations: columns::numbers(words, run.take(vans)?)?,
            earliest: columns::numbers(words, run.take(vans)?)?,
            latest: columns::numbers(words, run.take(vans)?)?,
            durations: columns::numbers(words, run.take(vans)?)?,
        })
    }

    // The fleet as it is lent.
    fn fleet(&self) -> Fleet<'_> {
        Fleet {
            ids: self.ids.as_slice(),
            depots: self.depots.as_slice(),
            capacities: self.capacities.as_slice(),
            distance_costs: self.distance_costs.as_slice(),
            fixed_costs: self.fixed_costs.as_slice(),
            flags: self.flags,
            max_distances: self.max_distances.as_slice(),
            max_durations: self.max_durations.as_slice(),
            earliest: self.earliest.as_slice(),
            latest: self.latest.as_slice(),
            durations: self.durations.as_slice(),
        }
    }
}

// Whether the run with this fleet agrees, which has what is of the lists left to read.
fn agrees_with(mut run: Run, sample: &SampleDay, fleet: &Fleet) -> Option<bool> {
    let lists = sample.lengths.len();
    let mut own_visits = copied(sample.visits)?;
    let mut own_lengths = copied(sample.lengths)?;
    let mut own_ids = columns::ids(run.words, run.bytes.take(lists)?)?;
    let prices: ArrayVec<f64, 64> = columns::numbers(run.words, run.bytes.take(lists)?)?;
    let limit = run.limit()?;
    let visits = own_visits.as_mut_slice();
    let lengths = own_lengths.as_mut_slice();
    let ids = own_ids.as_mut_slice();
    let ended = cross_depot_improve(
        &sample.day,
        fleet,
        visits,
        lengths,
        ids,
        prices.as_slice(),
        limit,
    )
    .ok()?;
    Some(
        ends_as_stored(&mut run, ended)?
            && run.are_places(lengths)?
            && run.are_places(visits)?
            && run.are_ids(ids)?
            && run.bytes.is_at_end(),
    )
}

// Whether the planner's answer to a run of this kind is the stored one.
pub fn agrees(mut run: Run, sample: &SampleDay) -> Option<bool> {
    let words = run.words;
    if !words.are_known(run.bytes.rest) {
        return None;
    }
    let columns = FleetColumns::read(words, &mut run.bytes)?;
    agrees_with(run, sample, &columns.fleet())
}
