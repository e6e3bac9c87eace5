// The entries that look at a list and change nothing. No entry has a `requires`: each asks the refusals first.

#![tactic(auto)]

pub mod list; // the list asked for, as the caller's own part
pub mod check; // the distance, the check, the evaluation and the schedule of a list
pub mod table; // what the searches work out before the first move
