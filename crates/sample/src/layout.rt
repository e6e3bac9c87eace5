// A day as it is stored: its parts, as long as it says itself, and its runs.
ghost use Rattle.std.specs.Prelude.{◌≡◌, ◌≤◌, ◌*◌, length, IfSome};

use sample_bytes::{Reader, Words};

// What a day has of its locations: a byte an entry.
#[derive(Clone, Copy)]
pub struct LocationBytes<'a> {
    pub count: usize,
    pub flags: &'a [u8],
    pub demand: &'a [u8],
    pub service: &'a [u8],
    pub ready: &'a [u8],
    pub due: &'a [u8],
    pub penalty: &'a [u8],
    pub distances: &'a [u8],
    pub times: &'a [u8],
}

// What a day has.
#[derive(Clone, Copy)]
pub struct DayBytes<'a> {
    pub words: Words<'a>,
    pub locations: LocationBytes<'a>,
    pub van: &'a [u8],
    pub lengths: &'a [u8],
    pub visits: &'a [u8],
    pub run_count: usize,
    pub runs: Reader<'a>,
}

impl<'a> DayBytes<'a> {
    // All parts whose bytes stand for something.
    pub fn tables(&self) -> [&'a [u8]; 11] {
        let locations = self.locations;
        [
            locations.flags,
            locations.demand,
            locations.service,
            locations.ready,
            locations.due,
            locations.penalty,
            locations.distances,
            locations.times,
            self.van,
            self.lengths,
            self.visits,
        ]
    }
}

// The entries of a table for as many locations.
fn square(locations: usize) -> usize
    requires { locations ≤ 64 }
    ensures { result ≤ 4096 }
{
    locations * locations
}

// The bytes of the locations, none where there are too many or too few.
fn location_bytes<'a>(day: &mut Reader<'a>, count: usize) -> Option<LocationBytes<'a>>
    ensures { IfSome result (λ bytes. bytes.count ≤ 64) }
{
    if count == 0 || count > 64 {
        return None;
    }
    let size = square(count);
    let flags = day.take(count)?;
    let demand = day.take(count)?;
    let service = day.take(count)?;
    let ready = day.take(count)?;
    let due = day.take(count)?;
    let penalty = day.take(count)?;
    let distances = day.take(size)?;
    let times = match day.byte()? {
        0 => day.take(0)?,
        1 => day.take(size)?,
        _ => return None,
    };
    Some(LocationBytes {
        count,
        flags,
        demand,
        service,
        ready,
        due,
        penalty,
        distances,
        times,
    })
}

// The sum of the lengths.
fn visit_count(lengths: &[u8]) -> usize {
    lengths.iter().fold(
        0,
        |count: usize, &length| count.saturating_add(usize::from(length)),
    )
}

// The parts of a day, none where it is too short or a count too large.
pub fn day_bytes<'a>(bytes: &'a [u8]) -> Option<DayBytes<'a>>
    ensures { IfSome result (λ day. (day.locations.count ≤ 64) × (length day.lengths.now ≤ 16) × (length day.visits.now ≤ 64)) }
{
    let mut day = Reader { rest: bytes };
    let count = day.count()?;
    let word_count = day.count()?;
    if word_count > 128 {
        return None;
    }
    let words = Words::of(day.take(8 * word_count)?);
    let locations = location_bytes(&mut day, count)?;
    let van = day.take(11)?;
    let list_count = day.count()?;
    let lengths = day.take(list_count)?;
    let visits = day.take(visit_count(lengths))?;
    if lengths.len() > 16 || visits.len() > 64 {
        return None;
    }
    let run_count = day.count()?;
    Some(DayBytes {
        words,
        locations,
        van,
        lengths,
        visits,
        run_count,
        runs: day,
    })
}

// The next day of a file, behind its size.
pub fn next_day<'a>(days: &mut Reader<'a>) -> Option<&'a [u8]> {
    let size = days.pair()?;
    days.take(size)
}

// The tag of the next run of a day and, behind its size, what it has.
pub fn next_run<'a>(runs: &mut Reader<'a>) -> Option<(u8, &'a [u8])> {
    let tag = runs.byte()?;
    let size = runs.count()?;
    Some((tag, runs.take(size)?))
}
