// Whether a file has the stored form: every day and run as long as it says, every byte of a day's tables standing for something, no number a NaN.
// What lies in a run isn't asked here: a run that doesn't have the form of its kind differs.
use crate::layout::{DayBytes, day_bytes, next_day, next_run};
use sample_bytes::Reader;

// Whether the runs are as many as the day says, and nothing lies behind them.
fn runs_are_whole(day: &DayBytes) -> bool {
    let mut runs = day.runs;
    (0..day.run_count).all(|_| next_run(&mut runs).is_some()) && runs.is_at_end()
}

// Whether a day has the stored form.
fn day_is_whole(bytes: &[u8]) -> bool {
    let Some(day) = day_bytes(bytes) else {
        return false;
    };
    let words = day.words;
    words.are_floats()
        && day.tables().iter().all(|table| words.are_known(table))
        && runs_are_whole(&day)
}

// Whether a file has it.
pub fn file_is_whole(bytes: &[u8]) -> bool {
    let mut file = Reader { rest: bytes };
    let Some(day_count) = file.pair() else {
        return false;
    };
    (0..day_count).all(|_| next_day(&mut file).is_some_and(day_is_whole)) && file.is_at_end()
}
