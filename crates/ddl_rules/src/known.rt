//! What is known of declarations.

use ddl_tree::Kind;
use ddl_types::{Cond, Ty};

/// What is known of a declaration, for all types of its variables. One of the group that is being
/// typed has no variables of its own, and its types are over those of the group.
#[derive(Drop)]
pub struct Known {
    /// How many variables it has.
    pub vars: u32,
    /// The kinds of its parameters.
    pub kinds: Vec<Kind>,
    /// The types of its parameters.
    pub params: Vec<Ty>,
    /// The type of its value.
    pub of: Ty,
    /// What is asked at each use of it.
    pub conds: Vec<Cond>,
}
