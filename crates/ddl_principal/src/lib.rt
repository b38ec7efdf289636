//! The laws of typing.
#![tactic(auto)]

mod laws;

pub use laws::principal_law;
