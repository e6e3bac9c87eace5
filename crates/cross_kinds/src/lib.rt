// The kinds of cross-depot's moves between two lists, row by row.

#![tactic(auto)]

pub mod kind; // kinds of moves, and their rows
