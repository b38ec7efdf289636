//! The small core language: its data, and the definition of its meaning.
#![tactic(auto)]

mod form;
mod laws;
mod operation;
mod place;
mod program;

pub use form::{Alternative, Form};
pub use laws::{attempt_law, depth_law};
pub use operation::Operation;
pub use place::{DeclName, PlaceShape};
pub use program::{Core, CoreFn};
