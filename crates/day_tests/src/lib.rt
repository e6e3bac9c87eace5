// The tests of a day's tables, locations and windows that refusals 3 to 5 of document 01 ask.

#![tactic(auto, unfolding(day::specs::Refusal::demand_ok, day::specs::Refusal::penalty_ok, day::specs::Refusal::present_ok, day::specs::Refusal::location_ok, day::specs::Refusal::lead_ok, day::specs::Refusal::span_ok, day::specs::Refusal::window_ok))]

ghost use Rattle.std.specs.Prelude.{◌≡◌, true, ◌+◌, ◌≤◌, ◌<◌, length, get_or};
ghost use Rattle.std.specs.Float.{nan};
ghost use Rattle.numbers.specs.Plain.{plain};
ghost use Rattle.tests.specs.All.{all_below, all_four};
ghost use Rattle.day.specs.Refusal.{all_plain, demand_ok, penalty_ok, location_ok, locations_ok, lead_ok, depots_lead, span_ok, window_ok, windows_ok};

use day::day::Day;
use day::flags::{flag0, flag1, flag2};
use numbers::is_plain;

// Whether the four numbers from a position on are plain.
fn four_plain(table: &[f64], i: usize) -> bool
    requires { i + 4 ≤ length table.now }
    ensures { result ≡ all_four (λ k. plain (get_or table.now k nan)) i }
{
    is_plain(table[i])
        & (is_plain(table[i + 1]) & (is_plain(table[i + 2]) & is_plain(table[i + 3])))
}

// How many numbers from the start of a table on are plain, in fours: four at once take a third of the time of one after another.
fn plain_fours(table: &[f64]) -> usize
    ensures { (result ≤ length table.now) × (all_below (λ k. plain (get_or table.now k nan)) result ≡ true) }
{
    let mut i = 0;
    while table.len() - i >= 4 {
        if !four_plain(table, i) {
            return i;
        }
        i += 4;
    }
    i
}

// 3: every number of a table is plain.
pub fn all_plain(table: &[f64]) -> bool
    ensures { result ≡ all_plain table.now }
{
    let fours = plain_fours(table);
    (fours..table.len()).all(|i| is_plain(table[i]))
}

fn demand_ok(x: i32) -> bool
    ensures { result ≡ demand_ok x }
{
    0 <= x && x <= 1000000
}

// 4: a penalty, read only where its flag is on.
fn penalty_ok(flags: &[u8], penalty: &[f64], k: usize) -> bool
    requires { (k < length flags.now) × (k < length penalty.now) }
    ensures { result ≡ penalty_ok flags.now penalty.now k }
{
    !flag2(flags[k]) || is_plain(penalty[k])
}

// 4, at location k.
fn location_ok(day: &Day, k: usize) -> bool
    requires { (k < length day.now.flags) × (k < length day.now.demand) × (k < length day.now.service) × (k < length day.now.penalty) }
    ensures { result ≡ location_ok day.now.flags day.now.demand day.now.service day.now.penalty k }
{
    let flags = day.flags[k];
    demand_ok(day.demand[k])
        && is_plain(day.service[k])
        && penalty_ok(day.flags, day.penalty, k)
        && flags <= 7
}

// 4, at every location.
pub fn locations_ok(day: &Day) -> bool
    requires { let d = day.now in (d.l ≤ length d.flags) × (d.l ≤ length d.demand) × (d.l ≤ length d.service) × (d.l ≤ length d.penalty) }
    ensures { let d = day.now in result ≡ locations_ok d.l d.flags d.demand d.service d.penalty }
{
    (0..day.locations).all(|k| location_ok(day, k))
}

fn lead_ok(flags: &[u8], k: usize) -> bool
    requires { k + 1 < length flags.now }
    ensures { result ≡ lead_ok flags.now k }
{
    flag0(flags[k]) || !flag0(flags[k + 1])
}

// 4: no depot flag stands after an unflagged location.
pub fn depots_lead(flags: &[u8]) -> bool
    requires { 0 < length flags.now }
    ensures { result ≡ depots_lead flags.now }
{
    (0..flags.len() - 1).all(|k| lead_ok(flags, k))
}

pub fn span_ok(first: f64, last: f64) -> bool
    ensures { result ≡ span_ok first last }
{
    is_plain(first) && is_plain(last) && !(last < first)
}

// 5, at location k. The window is read only where its flag is on.
fn window_ok(day: &Day, k: usize) -> bool
    requires { (k < length day.now.flags) × (k < length day.now.ready) × (k < length day.now.due) }
    ensures { result ≡ window_ok day.now.flags day.now.ready day.now.due k }
{
    !flag1(day.flags[k]) || span_ok(day.ready[k], day.due[k])
}

// 5, at every location.
pub fn windows_ok(day: &Day) -> bool
    requires { let d = day.now in (d.l ≤ length d.flags) × (d.l ≤ length d.ready) × (d.l ≤ length d.due) }
    ensures { let d = day.now in result ≡ windows_ok d.l d.flags d.ready d.due }
{
    (0..day.locations).all(|k| window_ok(day, k))
}
