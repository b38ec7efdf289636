//! What operators, patterns and what is built in do with values and on a stream.
#![tactic(auto)]

mod operators;
mod pattern;
mod target;

pub use operators::{Builtin, Cast, Comparison, Infix, Prefix, Primitive};
pub use pattern::Pattern;
pub use target::Target;
