// The line of places of document 01, and its van.
ghost use Rattle.std.specs.Prelude.{◌<◌};

use arrayvec::ArrayVec;
use day::day::Day;
use day::vehicle::Van;
use std::array::from_fn;

// More moves than any lists here take.
pub const ENOUGH: u32 = 1000;

// The day and the van that a run is asked of.
#[derive(Clone, Copy)]
pub struct Line<'a> {
    pub day: &'a Day<'a>,
    pub van: Van,
}

// The gaps between five places on a line, row by row.
pub fn distances(places: [u8; 5]) -> [f64; 25] {
    from_fn(
        |k|
            requires { k < 25 }
        { f64::from(places[k / 5].abs_diff(places[k % 5])) },
    )
}

// The day of document 01, at these distances: each place but the depot asks for 1.
pub fn day(distances: &[f64]) -> Day<'_> {
    Day {
        locations: 5,
        flags: &[1, 0, 0, 0, 0],
        demand: &[1; 5],
        service: &[0.0; 5],
        ready: &[0.0; 5],
        due: &[0.0; 5],
        penalty: &[0.0; 5],
        distances,
        times: &[],
    }
}

// A van of depot 0 without cost, limits or break.
pub fn van() -> Van {
    Van {
        id: 1,
        depot: 0,
        capacity: 3,
        cost_per_distance: 0.0,
        fixed_cost: 0.0,
        flags: 0,
        max_distance: 0.0,
        max_duration: 0.0,
        earliest: 0.0,
        latest: 0.0,
        duration: 0.0,
    }
}

// The same with a break, which bit 2 of the flags gives it.
pub fn van_with_break(earliest: f64, latest: f64, duration: f64) -> Van {
    Van {
        flags: 4,
        earliest,
        latest,
        duration,
        ..van()
    }
}

// Up to four visits, lengths or ids once more, to be changed.
pub fn copied<T: Copy + Default>(entries: &[T]) -> ArrayVec<T, 4> {
    ArrayVec::try_from(entries).unwrap_or_default()
}

// A list's length.
pub fn length_of(visits: &[u16]) -> u16 {
    u16::try_from(visits.len()).unwrap_or(0)
}
