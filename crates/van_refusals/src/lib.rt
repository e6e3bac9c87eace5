// Refusals 6 and 7 of document 01, those of the van, found in the order of their numbers.

#![tactic(auto, unfolding(tests::specs::All::unless, day::specs::Refusal::is_depot, day::specs::Refusal::capacity_ok, day::specs::Refusal::cost_ok, day::specs::Refusal::present_ok, day::specs::Refusal::break_ok, day::specs::Refusal::limits_ok, day::specs::Refusal::van_ok, crate::specs::Order::van_refusal))]

ghost use Rattle.std.specs.Prelude.{◌≡◌};
ghost use Rattle.day.specs.Number.{number_of};
ghost use Rattle.day.specs.Refusal.{capacity_ok, cost_ok, present_ok, break_ok, limits_ok, van_ok};
ghost use Rattle.van_refusals.specs.Order.{van_refusal};

use day::flags::{flag0, flag1, flag2};
use day::refusal::Refusal;
use day::vehicle::Van;
use day_scans::customer::num_depots;
use day_tests::span_ok;
use numbers::is_plain;

fn capacity_ok(x: i32) -> bool
    ensures { result ≡ capacity_ok x }
{
    0 <= x && x <= 2000000000
}

fn cost_ok(x: f64) -> bool
    ensures { result ≡ cost_ok x }
{
    is_plain(x) && (x == 0.0 || 0.00000095367431640625 <= x)
}

// A van's number, tested only where its flag is on.
fn present_ok(present: bool, x: f64) -> bool
    ensures { result ≡ present_ok present x }
{
    !present || is_plain(x)
}

fn break_ok(present: bool, earliest: f64, latest: f64, duration: f64) -> bool
    ensures { result ≡ break_ok present earliest latest duration }
{
    !present || (span_ok(earliest, latest) && is_plain(duration))
}

// 7, what its flags say is there.
fn limits_ok(v: Van) -> bool
    ensures { result ≡ limits_ok v }
{
    let f = v.flags;
    present_ok(flag0(f), v.max_distance)
        && present_ok(flag1(f), v.max_duration)
        && break_ok(flag2(f), v.earliest, v.latest, v.duration)
        && f <= 7
}

// 7
pub fn van_ok(v: Van) -> bool
    ensures { result ≡ van_ok v }
{
    capacity_ok(v.capacity)
        && cost_ok(v.cost_per_distance)
        && is_plain(v.fixed_cost)
        && limits_ok(v)
}

// The first refusal of the van, 6 or 7.
pub fn van_refusal(flags: &[u8], v: Van) -> Result<(), Refusal>
    ensures { number_of result ≡ van_refusal flags.now v }
{
    if v.depot >= num_depots(flags) {
        return Err(Refusal::Depot);
    }
    if !van_ok(v) {
        return Err(Refusal::Van);
    }
    Ok(())
}
