//! The parser: the module whose tokens these are, or the first token that no module goes on with.
#![tactic(auto)]

mod after_step;
mod error;
mod finish;
mod have_step;
mod parser;
mod step;

pub use error::SyntaxError;
pub use parser::parse;
