//! Local names.

use ddl_base::Span;
use ddl_tree::Kind;
use ddl_types::Ty;

/// A local name: what a parameter, a field, a `let`, a turn or a pattern binds.
#[derive(Drop)]
pub struct Local {
    /// Where its binder stands.
    pub at: Span,
    pub kind: Kind,
    /// How many names were in scope before it.
    pub number: u32,
    pub of: Ty,
}
