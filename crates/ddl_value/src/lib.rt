//! Values in slots: what the machine's operations on nodes do.
#![tactic(auto)]

mod arrays;
mod builders;
mod fields;

pub use arrays::{array_get, array_length};
pub use builders::array_push;
pub use fields::field;
