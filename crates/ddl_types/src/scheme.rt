//! The type of a declaration for all types of its variables.

use crate::{Cond, Ty};

/// A type with variables `Var(0)` to `Var(vars - 1)`, and what is asked of them.
#[derive(Drop)]
pub struct Scheme {
    pub vars: u32,
    pub conds: Vec<Cond>,
    pub of: Ty,
}

/// A scheme at types for its variables.
#[derive(Drop)]
pub struct Instance {
    pub of: Ty,
    pub conds: Vec<Cond>,
}
