//! A solver of equations between types.
#![tactic(auto)]

mod compared;
mod heads;
mod occurs;
mod reading;
mod refusal;
mod solver;
mod solving;
mod store;
mod trail;
mod written;

pub use refusal::EquateError;
pub use solver::Solver;
