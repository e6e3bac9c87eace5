// The entry across depots, which changes all lists in place and the ids of their vans.
pub use crossings::cross_depot_improve;
