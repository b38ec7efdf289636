//! The law of names in elaboration.
#![tactic(auto)]

mod laws;

pub use laws::named_law;
