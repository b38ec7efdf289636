//! The steps of the parser over expressions: the first token, what goes on, what ends.
#![tactic(auto)]

pub mod bound_step;
pub mod close_step;
pub mod extend_step;
pub mod first_step;
