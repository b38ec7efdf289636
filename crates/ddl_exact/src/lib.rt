//! What texts and names are answered is one answer.
#![tactic(auto)]

mod laws;

pub use laws::{names_law, source_law};
