// What the searches work out before the first move, for callers who want to see it.
pub use checks::table::{Table, table_of};
