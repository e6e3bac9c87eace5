// THE PUBLIC CRATE: every entry of the planner, passed on with its contract from the crate that holds it: `refusals`, `checks`, `improvements`,
// `rearrangements`, `crossings`. No entry has a `requires`: whatever a caller lends, it gets a result or one of document 01's refusals, and a refused call
// changes nothing. Each contract equates the answer, and every lent table that could change, with a definition of its crate's specs/.

#![tactic(auto)]

pub mod refusal; // the first refusal
pub mod list; // the list asked for, as the caller's own part
pub mod check; // the distance, the check, the evaluation and the schedule of a list
pub mod improve; // 2-opt, Or-opt and 3-opt of a list
pub mod rearrange; // relocate and tail exchange over all lists
pub mod depots; // moves between lists under different vans
pub mod table; // what the searches work out before the first move
