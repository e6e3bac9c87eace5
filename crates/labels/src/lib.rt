// The van at a stop with its service done, with and without the driver's break (the label of evaluation/schedule.rs).

#![tactic(auto)]

pub mod columns; // the columns and the tables of a day, lent
pub mod legs; // what they say of a location, and of the way to another
pub mod stop; // what the columns say of a visit
pub mod label; // the van at a stop with its service done
