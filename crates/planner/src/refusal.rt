// The first refusal, which every entry asks first.
pub use day::refusal::Refusal;
pub use refusals::{day_and_van_refusal, refusal_of, refusal_of_fleet, refusal_of_lists};
