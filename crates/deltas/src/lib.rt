// What the moves of the five engines change in f64, bit for bit as the Rust works it out (two_opt.rs, or_opt.rs, three_opt.rs, relocate.rs, exchange.rs), and
// demand 3 for the program's own judging: definitions (specs/), laws (proofs/) and the structs that both the definitions and the code speak of. Where the Rust
// adds up the legs of a turned piece, so does the definition; the short cut on a symmetric table gives the same bits.

#![tactic(auto)]

// Two stops: those around a piece, or a piece's own first and last visit.
#[derive(Clone, Copy)]
pub struct Ends {
    pub from: usize,
    pub to: usize,
}

// A list cut for 3-opt: the stops around the pieces B and C, the ends of each, and what turning it would change inside it.
#[derive(Clone, Copy)]
pub struct Cut {
    pub around: Ends,
    pub b: Ends,
    pub c: Ends,
    pub b_inside: f64,
    pub c_inside: f64,
}
