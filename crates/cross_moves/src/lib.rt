// Cross-depot's moves (local_search/cross_depot.rs): two lists whose vans start from different depots, a move between them, and what a list costs with its
// van. The definitions of the engine and of its whole run are in specs/CrossDepot.antt.

#![tactic(auto)]

pub mod pair; // two lists, and a move between them
pub mod plan; // all lists, as a search is lent them
pub mod side; // a list of the two, with what is worked out of it
