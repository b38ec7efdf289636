//! The steps of the parser over loops, cases, lists and fields.
#![tactic(auto)]

pub mod case_step;
pub mod field_step;
pub mod list_step;
pub mod loop_step;
