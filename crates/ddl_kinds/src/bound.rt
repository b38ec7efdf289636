use crate::builtin::BuiltIn;
use ddl_base::Span;

/// What a use of a name is bound to.
#[derive(Clone, Copy, PartialEq, Eq)]
pub enum Bound {
    /// The name of a parameter, a field, a `let`, a `for`, a `map` or a pattern, which stands there.
    Local(Span),
    /// The declaration of this number.
    Decl(u32),
    BuiltIn(BuiltIn),
}

/// A name that is used, and what it is bound to.
#[derive(Clone, Copy, PartialEq, Eq)]
pub struct Use {
    pub span: Span,
    pub bound: Bound,
}
