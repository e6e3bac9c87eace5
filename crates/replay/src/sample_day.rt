// A day of the sample as its runs are replayed on it.
use arrayvec::ArrayVec;
use day::day::Day;
use day::vehicle::Van;

// What the runs of a day share: the day and the van as they are lent, and the lists.
#[derive(Drop)]
pub struct SampleDay<'a> {
    pub day: Day<'a>,
    pub van: Van,
    pub visits: &'a [u16],
    pub lengths: &'a [u16],
}

// Visits or lengths once more, to be changed; none where there are more than 64.
pub fn copied(places: &[u16]) -> Option<ArrayVec<u16, 64>> {
    ArrayVec::try_from(places).ok()
}
