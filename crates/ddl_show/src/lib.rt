//! The text of a module: a line for each import and each declaration.
#![tactic(auto)]

mod blocks;
mod classes;
mod decls;
mod digits;
mod exprs;
mod law;
mod lines;
mod lists;
mod literals;
mod loops;
mod operators;
mod patterns;
mod tokens;
mod types;

pub use law::show_law;
pub use lines::show;
