// A day as it is lent: columns by location, the distances and the times.

use std::marker::Model;

// What a call is lent of a day. Its tables may have any length, and times may have length 0.
#[derive(Drop)]
pub struct Day<'a> {
    pub locations: usize,
    pub flags: &'a [u8],
    pub demand: &'a [i32],
    pub service: &'a [f64],
    pub ready: &'a [f64],
    pub due: &'a [f64],
    pub penalty: &'a [f64],
    pub distances: &'a [f64],
    pub times: &'a [f64],
}

impl<'a> Model for Day<'a> {
    ghost use Rattle.day.specs.Day.{Day as Lent, day_at};

    ghost Value = { Lent };

    ghost view = { λ d. day_at d.locations d.flags d.demand d.service d.ready d.due d.penalty d.distances d.times };
}
