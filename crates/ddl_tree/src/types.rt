use crate::{Name, Number};
use ddl_base::Span;

/// A written type.
#[cycle(types)]
#[derive(Drop)]
pub enum TypeExpr {
    Int(Span),
    /// `uint 8`
    Uint {
        width: Number,
        span: Span,
    },
    /// `sint 8`
    Sint {
        width: Number,
        span: Span,
    },
    Bool(Span),
    Stream(Span),
    Float(Span),
    Double(Span),
    /// `maybe t`
    Maybe {
        content: Box<TypeExpr>,
        span: Span,
    },
    /// `[t]`
    ArrayOf {
        element: Box<TypeExpr>,
        span: Span,
    },
    /// `[k -> v]`
    MapOf {
        key: Box<TypeExpr>,
        value: Box<TypeExpr>,
        span: Span,
    },
    /// `{}`
    Empty(Span),
    /// The name of a bitdata or of a grammar.
    Named(Name),
    /// `(t)`
    Within {
        inner: Box<TypeExpr>,
        span: Span,
    },
}

impl TypeExpr {
    ghost use Rattle.std.specs.Prelude.{◌≡◌};
    ghost use Rattle.ddl_tree.specs.TypeTree.{type_span};
    ghost use Rattle.ddl_tree.specs.View.{type_view};

    /// From its first byte to its last.
    #[tactic(auto, using(crate::proofs::Layers::layers))]
    pub fn span(&self) -> Span
        ensures { result ≡ type_span (type_view self.now) }
    {
        match self {
            TypeExpr::Int(span)
            | TypeExpr::Bool(span)
            | TypeExpr::Stream(span)
            | TypeExpr::Float(span)
            | TypeExpr::Double(span)
            | TypeExpr::Empty(span)
            | TypeExpr::Uint { span, .. }
            | TypeExpr::Sint { span, .. }
            | TypeExpr::Maybe { span, .. }
            | TypeExpr::ArrayOf { span, .. }
            | TypeExpr::MapOf { span, .. }
            | TypeExpr::Within { span, .. } => *span,
            TypeExpr::Named(name) => name.span,
        }
    }
}
