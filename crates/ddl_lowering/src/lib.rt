//! The definition of lowering: which program of the core language a specialised specification becomes, and its law.
#![tactic(auto)]

mod laws;

pub use laws::lowering_keeps;
