//! What a group of declarations asks of its types.

use ddl_judging::{Asked, Shapes};
use ddl_types::Ty;

/// What a group of declarations asks of its types.
#[derive(Clone, Copy)]
pub struct Group<'a> {
    pub shapes: &'a Shapes,
    /// What is asked, in text order, a form before its parts.
    pub asked: &'a [Asked],
    /// The types of its declarations: of each those of its parameters, then its own.
    pub roots: &'a [Ty],
    /// Whether each of its declarations has parameters.
    pub with_parameters: bool,
}
