// What a whole table or column of a day tells, as distance/matrix.rs and models/customer.rs read it off.

#![tactic(auto)]

pub mod matrix; // the largest distance, whether the table is symmetric
pub mod customer; // how many depots, whether there are windows, or soft ones
