// The laws of tests that hold of all: of every number below a bound, of every entry of a slice, and of a test that picks one of two. Definitions and laws alone.

#![tactic(auto)]
