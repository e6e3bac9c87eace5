// A day and a van as they are lent: columns by location, the tables of distances and times.
// Ports distance/matrix.rs, models/customer.rs, models/vehicle.rs and `RouteLimits` of evaluation/mod.rs, without the parts that build records.

#![tactic(auto)]

pub mod day; // what a call is lent of a day
pub mod refusal; // what the table refuses, with its numbers
pub mod flags; // the bits of a flags byte
pub mod matrix; // distance, travel time
pub mod customer; // the window of a location
pub mod vehicle; // the van, its costs and its limits
