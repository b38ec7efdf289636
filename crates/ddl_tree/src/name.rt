use ddl_base::{Bytes, Span};
use ddl_token::Base;

/// A name, as its token spells it: the name of a class begins with `$`.
#[derive(Drop)]
pub struct Name {
    pub text: Bytes,
    pub span: Span,
}

/// A number, as it is written.
#[derive(Clone, Copy, PartialEq, Eq)]
pub struct Number {
    pub value: u128,
    pub base: Base,
    /// The digits after the mark of the base, leading zeros among them.
    pub digits: u32,
    pub span: Span,
}

/// A byte of a class: `65` or `'A'`.
#[derive(Clone, Copy, PartialEq, Eq)]
pub enum ByteLit {
    Code(Number),
    Quoted { value: u8, span: Span },
}

impl ByteLit {
    ghost use Rattle.std.specs.Prelude.{◌≡◌};
    ghost use Rattle.ddl_tree.specs.ClassTree.{byte_span};

    /// From its first byte to its last.
    pub fn span(&self) -> Span
        ensures { result ≡ byte_span self.now }
    {
        match self {
            ByteLit::Code(number) => number.span,
            ByteLit::Quoted { span, .. } => *span,
        }
    }
}
