//! The definition of the way from the core language to blocks: which code a program becomes, and its law.
#![tactic(auto)]

mod laws;

pub use laws::emission_keeps;
