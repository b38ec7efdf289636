//! The steps of the parser over types and classes.
#![tactic(auto)]

pub mod class_step;
pub mod type_step;
