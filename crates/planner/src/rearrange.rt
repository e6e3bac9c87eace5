// The entries that change all lists in place: relocate and tail exchange.
pub use rearrangements::{Rearranged, exchange_improve, relocate_improve};
