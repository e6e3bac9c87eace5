// The entries that look at one list and change nothing: its distance, whether it passes, what it comes to, and its schedule.
pub use break_clock::Scheduled;
pub use checks::check::{route_distance, route_eval, route_feasible, schedule};
pub use evaluation::route::RouteEval;
