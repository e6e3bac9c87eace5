// The parts of a day and of a fleet as tables to lend: each has an entry a byte.
ghost use Rattle.std.specs.Prelude.{◌≡◌, ◌+◌, ◌<◌, length, MatchOption, IfSome};
ghost use Rattle.arrayvec.specs.ArrayVec.{array_vec_len};

use crate::layout::{DayBytes, LocationBytes};
use arrayvec::ArrayVec;
use day::day::Day;
use day::vehicle::Van;
use sample_bytes::Words;

// Puts an entry for each byte behind those of a column; nothing where it has no room for them all.
fn read_into<T: Default + Drop, const N: usize, F: Fn(u8) -> T>(
    column: &mut ArrayVec<T, N>,
    bytes: &[u8],
    entry: F,
) -> Option<()>
    requires { F.IsAlwaysCallable entry }
    ensures { let all = array_vec_len column.old + length bytes.now
        in MatchOption result (N < all) (λ done. array_vec_len column.new ≡ all) }
{
    for &byte in bytes {
        column.try_push(entry(byte)).ok()?;
    }
    Some(())
}

// An entry for each byte, nothing where there are more than `N`.
fn column<T: Default + Drop, const N: usize, F: Fn(u8) -> T>(
    bytes: &[u8],
    entry: F,
) -> Option<ArrayVec<T, N>>
    requires { F.IsAlwaysCallable entry }
    ensures { MatchOption result (N < length bytes.now) (λ column. array_vec_len column ≡ length bytes.now) }
{
    let mut column = ArrayVec::new();
    read_into(&mut column, bytes, entry)?;
    Some(column)
}

// Numbers: a column, or a table's rows one after another.
pub fn numbers<const N: usize>(words: Words, bytes: &[u8]) -> Option<ArrayVec<f64, N>>
    ensures { MatchOption result (N < length bytes.now) (λ column. array_vec_len column ≡ length bytes.now) }
{
    column(bytes, |byte| words.number(byte))
}

// A whole number, -1 where it is too large: a demand or capacity that is refused.
fn signed(value: u64) -> i32 {
    i32::try_from(value).unwrap_or(-1)
}

// A column of whole numbers.
pub fn demands(words: Words, bytes: &[u8]) -> Option<ArrayVec<i32, 64>>
    ensures { MatchOption result (64 < length bytes.now) (λ column. array_vec_len column ≡ length bytes.now) }
{
    column(bytes, |byte| signed(words.value(byte)))
}

// Visits, or lengths of lists.
pub fn places(bytes: &[u8]) -> Option<ArrayVec<u16, 64>>
    ensures { MatchOption result (64 < length bytes.now) (λ column. array_vec_len column ≡ length bytes.now) }
{
    column(bytes, |byte| u16::from(byte))
}

// An id or a limit, 0 where it is too large.
pub fn short(value: u64) -> u32 {
    u32::try_from(value).unwrap_or(0)
}

// Ids, each 0 where it is too large.
pub fn ids(words: Words, bytes: &[u8]) -> Option<ArrayVec<u32, 64>>
    ensures { MatchOption result (64 < length bytes.now) (λ column. array_vec_len column ≡ length bytes.now) }
{
    column(bytes, |byte| short(words.value(byte)))
}

// Depots by number.
pub fn depots(words: Words, bytes: &[u8]) -> Option<ArrayVec<usize, 64>>
    ensures { MatchOption result (64 < length bytes.now) (λ column. array_vec_len column ≡ length bytes.now) }
{
    column(bytes, |byte| words.value(byte) as usize)
}

// The van of a day, none unless it has eleven bytes.
pub fn van(words: Words, bytes: &[u8]) -> Option<Van> {
    let &[
        id,
        depot,
        capacity,
        cost_per_distance,
        fixed_cost,
        flags,
        max_distance,
        max_duration,
        earliest,
        latest,
        duration,
    ] = bytes
    else {
        return None;
    };
    Some(Van {
        id: short(words.value(id)),
        depot: words.value(depot) as usize,
        capacity: signed(words.value(capacity)),
        cost_per_distance: words.number(cost_per_distance),
        fixed_cost: words.number(fixed_cost),
        flags,
        max_distance: words.number(max_distance),
        max_duration: words.number(max_duration),
        earliest: words.number(earliest),
        latest: words.number(latest),
        duration: words.number(duration),
    })
}

// The columns of a day that are lent.
#[derive(Drop)]
pub struct DayColumns<'a> {
    locations: usize,
    flags: &'a [u8],
    demand: ArrayVec<i32, 64>,
    service: ArrayVec<f64, 64>,
    ready: ArrayVec<f64, 64>,
    due: ArrayVec<f64, 64>,
    penalty: ArrayVec<f64, 64>,
    distances: ArrayVec<f64, 4096>,
    times: ArrayVec<f64, 4096>,
}

impl<'a> DayColumns<'a> {
    ghost use Rattle.sample.specs.Columns.{Unread, Read};

    pub fn of(words: Words, bytes: &LocationBytes<'a>) -> Option<DayColumns<'a>> {
        let mut columns = DayColumns::unread(bytes);
        columns.read(words, bytes)?;
        Some(columns)
    }

    // The size and the flags; the other columns have no entry yet. With `read` this is `of` in the caller's own place, where an Option of the columns, 67 KB,
    // would be copied on the stack.
    pub fn unread(bytes: &LocationBytes<'a>) -> DayColumns<'a>
        ensures { Unread bytes.now result }
    {
        DayColumns {
            locations: bytes.count,
            flags: bytes.flags,
            demand: ArrayVec::new(),
            service: ArrayVec::new(),
            ready: ArrayVec::new(),
            due: ArrayVec::new(),
            penalty: ArrayVec::new(),
            distances: ArrayVec::new(),
            times: ArrayVec::new(),
        }
    }

    // Reads the columns that have no entry yet.
    pub fn read(&mut self, words: Words, bytes: &LocationBytes) -> Option<()>
        ensures { IfSome result (λ done. Read bytes.now self.old self.new) }
    {
        read_into(
            &mut self.demand,
            bytes.demand,
            |byte| signed(words.value(byte)),
        )?;
        read_into(&mut self.service, bytes.service, |byte| words.number(byte))?;
        read_into(&mut self.ready, bytes.ready, |byte| words.number(byte))?;
        read_into(&mut self.due, bytes.due, |byte| words.number(byte))?;
        read_into(&mut self.penalty, bytes.penalty, |byte| words.number(byte))?;
        read_into(
            &mut self.distances,
            bytes.distances,
            |byte| words.number(byte),
        )?;
        read_into(&mut self.times, bytes.times, |byte| words.number(byte))
    }

    // The day as it is lent.
    pub fn day(&self) -> Day<'_> {
        Day {
            locations: self.locations,
            flags: self.flags,
            demand: self.demand.as_slice(),
            service: self.service.as_slice(),
            ready: self.ready.as_slice(),
            due: self.due.as_slice(),
            penalty: self.penalty.as_slice(),
            distances: self.distances.as_slice(),
            times: self.times.as_slice(),
        }
    }
}
