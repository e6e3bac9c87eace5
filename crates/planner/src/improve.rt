// The entries that change one list in place: 2-opt, Or-opt and 3-opt.
pub use improvements::{Improved, or_opt_improve, three_opt_improve, two_opt_improve};
