//! What loading and calls of the program answer is one answer, where it is told what files hold.
#![tactic(auto)]

mod laws;

pub use laws::{load_law, run_law};
