// The parts of a day and a run read as if zeros lay behind their bytes: tables of a fixed size, and what is stored at a place.
ghost use Rattle.std.specs.Prelude.{◌≡◌, ℕ, ◌<◌, ◌==◌, ◌&&◌, length, IsTrue, slice_get, slice_index};
ghost use Rattle.sample_bytes.specs.Words.{is_known, number, value};
ghost use Rattle.sample.specs.Padded.{IsColumn, signed, short, van_of};

use day::vehicle::Van;
use sample_bytes::padded::byte_at;
use sample_bytes::{Words, same};
use std::array::from_fn;

// An entry for each of `N` bytes.
fn column<T, const N: usize, F: Fn(u8) -> T>(bytes: &[u8], entry: F) -> [T; N]
    requires { F.IsAlwaysCallable entry }
    ensures size { N ≡ length result }
    ensures entries { (k : ℕ) → k < N → (x : T) × (slice_get result k ≡ Some x) × F.post entry (slice_index bytes.now k) x }
{
    from_fn(|k| entry(byte_at(bytes, k)))
}

// A column of numbers.
pub fn numbers(words: Words, bytes: &[u8]) -> [f64; 64]
    ensures size { 64 ≡ length result }
    ensures entries { IsColumn 64 (number words.entry.words.now) bytes.now result }
{
    column(bytes, |byte| words.number(byte))
}

// A table of numbers, a row after another.
pub fn rows(words: Words, bytes: &[u8]) -> [f64; 4096]
    ensures size { 4096 ≡ length result }
    ensures entries { IsColumn 4096 (number words.entry.words.now) bytes.now result }
{
    column(bytes, |entry| words.number(entry))
}

// A whole number, -1 where it is too large.
fn signed(value: u64) -> i32
    ensures { result ≡ signed value }
{
    i32::try_from(value).unwrap_or(-1)
}

// A column of whole numbers.
pub fn demands(words: Words, bytes: &[u8]) -> [i32; 64]
    ensures size { 64 ≡ length result }
    ensures entries { IsColumn 64 (λ byte. signed (value words.entry.words.now byte)) bytes.now result }
{
    column(bytes, |byte| signed(words.value(byte)))
}

// Visits, or lengths of lists.
pub fn places(bytes: &[u8]) -> [u16; 64]
    ensures size { 64 ≡ length result }
    ensures entries { IsColumn 64 (λ byte. byte) bytes.now result }
{
    column(bytes, |byte| u16::from(byte))
}

// An id, 0 where it is too large.
fn short(value: u64) -> u32
    ensures { result ≡ short value }
{
    u32::try_from(value).unwrap_or(0)
}

// A column of ids.
pub fn ids(words: Words, bytes: &[u8]) -> [u32; 64]
    ensures size { 64 ≡ length result }
    ensures entries { IsColumn 64 (λ byte. short (value words.entry.words.now byte)) bytes.now result }
{
    column(bytes, |byte| short(words.value(byte)))
}

// Depots by number.
pub fn depots(words: Words, bytes: &[u8]) -> [usize; 64]
    ensures size { 64 ≡ length result }
    ensures entries { IsColumn 64 (value words.entry.words.now) bytes.now result }
{
    column(bytes, |byte| words.value(byte) as usize)
}

// The van of a day.
pub fn van(words: Words, bytes: &[u8]) -> Van
    ensures { result ≡ van_of words.entry.words.now bytes.now }
{
    let value = |at| words.value(byte_at(bytes, at));
    let number = |at| words.number(byte_at(bytes, at));
    Van {
        id: short(value(0)),
        depot: value(1) as usize,
        capacity: signed(value(2)),
        cost_per_distance: number(3),
        fixed_cost: number(4),
        flags: byte_at(bytes, 5),
        max_distance: number(6),
        max_duration: number(7),
        earliest: number(8),
        latest: number(9),
        duration: number(10),
    }
}

// Whether a number is the one stored at a place of the run.
pub fn is_number(run: &[u8], words: Words, at: usize, x: f64) -> bool
    ensures known { IsTrue result → IsTrue (is_known words.entry.words.now (slice_index run.now at)) }
{
    let byte = byte_at(run, at);
    words.is_known(byte) && same(x, words.number(byte))
}

// Whether a count is the value stored at a place of the run.
pub fn is_count(run: &[u8], words: Words, at: usize, n: u32) -> bool
    ensures { let byte = slice_index run.now at in result ≡ (is_known words.entry.words.now byte && (value words.entry.words.now byte == n)) }
{
    let byte = byte_at(run, at);
    words.is_known(byte) && words.value(byte) == u64::from(n)
}
