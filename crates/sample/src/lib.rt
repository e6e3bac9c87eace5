// The stored sample of the published Rust's answers (oracle/README.md, 'The stored sample') as a file: its parts, and what they stand for.
// Every read is tested: no file, whatever its bytes, can be read outside of.

#![tactic(auto)]

pub mod kind; // the kinds of run
pub mod layout; // the parts of a day, and its runs
pub mod columns; // the parts of a day and of a fleet as tables to lend
pub mod whole; // whether the file has the stored form
pub mod stored; // what a run has stored
pub mod padded; // the same with zeros behind the bytes, so that nothing fails
