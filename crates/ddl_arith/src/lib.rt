//! Exact arithmetic on the numbers of a grammar.
#![tactic(auto)]

mod bits;
mod casts;
mod exact;
mod operation;
mod signed;
mod unsigned;

pub use casts::{cut, join, keep};
pub use ddl_types::Fault;
pub use exact::op;
pub use operation::Op;
