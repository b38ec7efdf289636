use crate::{Name, Number};
use ddl_base::Span;

/// What an alternative of a `case` fits.
#[derive(Drop)]
pub enum Pat {
    /// `_`
    Any(Span),
    Num(Number),
    Char {
        value: u8,
        span: Span,
    },
    True(Span),
    False(Span),
    Nothing(Span),
    /// `just x`
    Just {
        content: Binder,
        span: Span,
    },
    /// `tag` or `tag x`
    Tag {
        tag: Name,
        content: Option<Binder>,
        span: Span,
    },
}

/// What the content of a pattern is called.
#[derive(Drop)]
pub enum Binder {
    Called(Name),
    /// `_`
    Ignored(Span),
}

/// The form that `is` wants of a value.
#[derive(Drop)]
pub enum Shape {
    IsTag(Name),
    IsTrue(Span),
    IsFalse(Span),
    IsJust(Span),
    IsNothing(Span),
}

/// The names for the elements of a list, after an optional one for their places or keys.
#[derive(Drop)]
pub struct Names {
    pub first: Name,
    pub second: Option<Name>,
    pub span: Span,
}

impl Pat {
    ghost use Rattle.std.specs.Prelude.{◌≡◌};
    ghost use Rattle.ddl_tree.specs.PatternTree.{pattern_span};

    /// From its first byte to its last.
    pub fn span(&self) -> Span
        ensures { result ≡ pattern_span self.now }
    {
        match self {
            Pat::Num(number) => number.span,
            Pat::Any(span)
            | Pat::Char { span, .. }
            | Pat::True(span)
            | Pat::False(span)
            | Pat::Nothing(span)
            | Pat::Just { span, .. }
            | Pat::Tag { span, .. } => *span,
        }
    }
}

impl Binder {
    ghost use Rattle.std.specs.Prelude.{◌≡◌};
    ghost use Rattle.ddl_tree.specs.PatternTree.{binder_span};

    /// From its first byte to its last.
    pub fn span(&self) -> Span
        ensures { result ≡ binder_span self.now }
    {
        match self {
            Binder::Called(name) => name.span,
            Binder::Ignored(span) => *span,
        }
    }
}

impl Shape {
    ghost use Rattle.std.specs.Prelude.{◌≡◌};
    ghost use Rattle.ddl_tree.specs.PatternTree.{shape_span};

    /// From its first byte to its last.
    pub fn span(&self) -> Span
        ensures { result ≡ shape_span self.now }
    {
        match self {
            Shape::IsTag(name) => name.span,
            Shape::IsTrue(span)
            | Shape::IsFalse(span)
            | Shape::IsJust(span)
            | Shape::IsNothing(span) => *span,
        }
    }
}
