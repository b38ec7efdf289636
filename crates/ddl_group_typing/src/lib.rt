//! The typing of groups of declarations: definitions, and what holds of them.
#![tactic(auto)]

mod laws;

pub use laws::{instances_law, typing_law, well_typed_law};
