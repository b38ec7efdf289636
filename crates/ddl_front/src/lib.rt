//! A specification's modules with their names bound, or why it is refused.
#![tactic(auto)]

mod modules;
mod reasons;

pub use modules::bound_modules;
pub use reasons::{long_told, source_told};
