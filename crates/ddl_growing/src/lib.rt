//! The turn of one demand: the equations that it adds once the heads of its subjects are known.
#![tactic(auto)]

mod adding;
mod gathering;
mod heads;
mod joining;
mod keys;
mod loops;
mod members;
mod refusal;
mod turn;

pub use refusal::SettleError;
pub use turn::{Turn, take_turn};
