//! The groups of declarations: those that reach each other by their uses, in the order of need and of text.
#![tactic(auto)]

mod closing;
mod group;
mod joining;
mod laws;
mod lists;
mod marks;
mod members;
mod need_order;
mod needs;
mod opening;
mod placing;
mod ready;
mod resolved_groups;
mod search;
mod settling;
mod steps;
mod uses;

pub use group::{Group, Groups};
pub use laws::{groups_law, labels_law};
pub use need_order::ordered;
pub use resolved_groups::groups;
