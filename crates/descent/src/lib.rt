//! The pattern of every engine, the permitted moves and the claim of demand 3: definitions (specs/) and laws (proofs/), and no code.

#![tactic(auto)]
