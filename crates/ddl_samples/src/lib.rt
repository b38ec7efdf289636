//! Small parts of inputs that tests, and the program that is timed, build alike.
#![tactic(auto)]

pub mod layouts;
pub mod names;
