//! Declarations whose names are bound, in rows and in rings, for tests and for the program that is timed.
#![tactic(auto)]

mod rows_and_rings;

pub use rows_and_rings::{Uses, declarations, declared};
