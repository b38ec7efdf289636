//! The steps of the parser over modules, declarations and layouts of bit data.
#![tactic(auto)]

pub mod bits_step;
pub mod decl_step;
pub mod module_step;
