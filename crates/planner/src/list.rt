// The list asked for, as the caller's own part of the table that it lent.
pub use checks::list::list_of;
