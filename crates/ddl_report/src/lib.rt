//! The lines that the program writes: one for each parse, one that ends a run, and one of a refusal.
#![tactic(auto)]

mod closing;
mod line;
mod names;
mod numbers;
mod object;
mod refusal;
mod values;

pub use closing::{Closing, closing_line};
pub use line::line_of_parse;
pub use refusal::refusal_line;
