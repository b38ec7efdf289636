use crate::{ByteLit, Name};
use ddl_base::Span;

/// A set of bytes.
#[cycle(class)]
#[derive(Drop)]
pub enum Cls {
    /// `c | d`; it groups to the left.
    Union {
        left: Box<Cls>,
        right: Box<Cls>,
        span: Span,
    },
    One(ByteLit),
    /// `'0' .. '9'`, both ends among them.
    Range {
        first: ByteLit,
        last: ByteLit,
        span: Span,
    },
    Known(Name),
    /// `! c`
    Other {
        inner: Box<Cls>,
        span: Span,
    },
    /// `(c)`
    Grouped {
        inner: Box<Cls>,
        span: Span,
    },
    /// `$[c]`
    Set {
        inner: Box<Cls>,
        span: Span,
    },
}

impl Cls {
    ghost use Rattle.std.specs.Prelude.{◌≡◌};
    ghost use Rattle.ddl_tree.specs.ClassTree.{class_span};
    ghost use Rattle.ddl_tree.specs.View.{class_view};

    /// From its first byte to its last.
    #[tactic(auto, using(crate::proofs::Layers::layers))]
    pub fn span(&self) -> Span
        ensures { result ≡ class_span (class_view self.now) }
    {
        match self {
            Cls::Union { span, .. }
            | Cls::Range { span, .. }
            | Cls::Other { span, .. }
            | Cls::Grouped { span, .. }
            | Cls::Set { span, .. } => *span,
            Cls::One(byte) => byte.span(),
            Cls::Known(name) => name.span,
        }
    }
}
