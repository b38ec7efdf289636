//! Sets of bytes, as a pattern of a grammar names them.
#![tactic(auto)]

mod class;

pub use class::Class;
