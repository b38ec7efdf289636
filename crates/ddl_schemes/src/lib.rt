//! The variables of a group's types, and its types for all types of these.
#![tactic(auto)]

mod found;
mod laws;
mod numbering;
mod reading;
mod sharing;
mod walk;

pub use laws::numbering_law;
pub use numbering::Numbering;
