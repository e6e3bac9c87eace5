// The check of a list, with and without the driver's break, and what the list costs.
// Ports evaluation/mod.rs (without `lateness_bound`), and `route_distance` of local_search/or_opt.rs; evaluation/schedule.rs is `labels` and `break_clock`.
// A list is driven once, from a state that is a value: the distance so far, the clock, and the place where the van is.

#![tactic(auto)]

pub mod unclocked; // the distance of a list that needs no clock
pub mod drive; // a list driven with no break to take
pub mod clocked; // whether a list passes, by its clock
pub mod route; // the check, the evaluation and the price of a list
pub mod distance; // the distance of a list
