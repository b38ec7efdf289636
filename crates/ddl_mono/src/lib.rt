//! Specialised specifications: copies of declarations, over the same tree as typed ones.
#![tactic(auto)]

mod mono;

pub use mono::{Mono, MonoCopy};
