//! How deep the shallowest module is that begins with what has been read.
#![tactic(auto)]

mod depth;
pub mod limit;
